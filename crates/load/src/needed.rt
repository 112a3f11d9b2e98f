// How many work words a load needs, and what it refuses without any.
ghost use Rattle.std.specs.Prelude.{◌≡◌};
ghost use Rattle.image.specs.Refusals.{refusal_in};
ghost use Rattle.load.specs.Load.{load_rule};
ghost use Rattle.load.specs.Needed.{words_to_load};

use crate::load;
use image::ImageView;
use image::refusal::Refusal;

// Work words that suffice to load the bytes, whatever they are: nodes + children + named + 1 where the header passes, else none.
pub fn load_words(bytes: &[u8]) -> usize
    ensures { result ≡ words_to_load bytes.now }
{
    match ImageView::new(bytes) {
        Err(_) => 0,
        Ok(view) => {
            view.nodes.count as usize + view.children.count as usize + view.named.count as usize + 1
        }
    }
}

// What a load without work words refuses.
pub fn load_without_words(bytes: &[u8]) -> Result<(), Refusal>
    ensures { refusal_in result ≡ load_rule bytes.now 0 }
{
    let mut word = [0u32; 1];
    let none: &mut [u32] = &mut word;
    load(bytes, &mut none[..0])?;
    Ok(())
}
