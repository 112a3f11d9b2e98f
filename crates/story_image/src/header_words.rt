// Words of the header, of the bytes alone: only the technician's reader tells them.
ghost use Rattle.answers.specs.AnswerWords.{Answered};
ghost use Rattle.story_image.specs.Queries.{answer_of_total_length, answer_of_strings_length, answer_of_checksum};

// The total length, in bytes, that the header gives.
#[unsafe(no_mangle)]
pub extern "C" fn story_image_total_length(bytes: &[u8], answer: &mut [u32]) -> u32
    ensures { Answered (answer_of_total_length bytes.now) answer.old answer.new result }
{
    answers::put_found(technician::total_length(bytes), answer)
}

// The length of the string section, in bytes, that the header gives.
#[unsafe(no_mangle)]
pub extern "C" fn story_image_strings_length(bytes: &[u8], answer: &mut [u32]) -> u32
    ensures { Answered (answer_of_strings_length bytes.now) answer.old answer.new result }
{
    answers::put_found(technician::strings_length(bytes), answer)
}

// The checksum that the header gives.
#[unsafe(no_mangle)]
pub extern "C" fn story_image_checksum(bytes: &[u8], answer: &mut [u32]) -> u32
    ensures { Answered (answer_of_checksum bytes.now) answer.old answer.new result }
{
    answers::put_found(technician::checksum(bytes), answer)
}
