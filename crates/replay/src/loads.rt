// Loads of a recorded image, whole and damaged. The first word of each record is the number that the Rust gives, 0 for an accepted
// image.
ghost use Rattle.std.specs.Prelude.{◌≡◌, ◌≤◌, length};
ghost use Rattle.load.specs.Load.{loaded_of};
ghost use Rattle.promises.specs.Answers.{of_loaded};
ghost use Rattle.replay.specs.Recorded.{recorded_load};

use image::ImageView;

// What a load answers, as a number.
fn number_with(bytes: &[u8], work: &mut [u32]) -> u32
    ensures { result ≡ (of_loaded (loaded_of bytes.now (length work.old))).number }
{
    match load::load(bytes, work) {
        Ok(_) => 0,
        Err(refusal) => refusal.number(),
    }
}

// Whether the load of these bytes gives the recorded number.
fn agrees_with(fields: &[u8], bytes: &[u8], work: &mut [u32]) -> bool
    ensures { result ≡ recorded_load fields.now (loaded_of bytes.now (length work.old)) }
{
    number_with(bytes, work) == words::get(fields, 0)
}

// The same, with 2,048 work words.
fn agrees(fields: &[u8], bytes: &[u8]) -> bool {
    agrees_with(fields, bytes, &mut [0; 2048])
}

// Row, length; then the image.
pub fn image_agrees(fields: &[u8], image: &[u8]) -> bool {
    agrees(fields, image)
}

// Row, position in bytes, word: that word in the image, and the checksum set right.
pub fn word_agrees(fields: &[u8], image: &[u8]) -> bool {
    let mut room = [0; ROOM];
    let n = copy(image, &mut room);
    words::put(
        &mut room,
        words::get(fields, 4) as usize,
        words::get(fields, 8),
    );
    let sum = checksum::checksum(&room[..n]);
    words::put(&mut room, ImageView::CHECKSUM_AT, sum);
    agrees(fields, &room[..n])
}

// Row, position in bits: that bit turned.
pub fn bit_agrees(fields: &[u8], image: &[u8]) -> bool {
    let mut room = [0; ROOM];
    let n = copy(image, &mut room);
    let bit = words::get(fields, 4);
    if let Some(byte) = room.get_mut((bit / 8) as usize) {
        *byte ^= 1 << (bit % 8);
    }
    agrees(fields, &room[..n])
}

// Row, length: the image's first bytes.
pub fn cut_agrees(fields: &[u8], image: &[u8]) -> bool {
    agrees(fields, image::text_part(image, 0, words::get(fields, 4)))
}

// The longest image that is damaged, in bytes.
const ROOM: usize = 4096;

// Copies an image into the room, as far as it goes; answers how many bytes.
fn copy(image: &[u8], room: &mut [u8; ROOM]) -> usize
    ensures { result ≤ 4096 }
{
    let n = image.len().min(ROOM);
    room[..n].copy_from_slice(&image[..n]);
    n
}
