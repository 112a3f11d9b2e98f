// Runs FORMAT.md's examples of counts of targets through the code. Standard input holds fourteen images, each behind its length: the twelve that
// `queries` asks, and two more. Targets are counted of four of them: forty nodes, with words past them and with one too few; a root whose only
// child is a named one; a story with each kind of target, and that story with a target that is no node, which a load refuses.
#![tactic(auto)]

use image::ImageView;
use image::refusal::number_of;
use input::image_at;
use std::io;

// How many targets name each node of an image: the number, and every word that was lent.
fn print_counts(rt: &impl Print, name: &str, image: &[u8], summary: &mut [u32]) -> io::Result<()> {
    print!(rt; "{name}: ")?;
    match ImageView::new(image) {
        Ok(view) => {
            let number = number_of(target_counts::count_targets(image, view, summary));
            print!(rt; "{number},")?;
            for word in summary.iter() {
                print!(rt; " {word}")?;
            }
            println!(rt)
        }
        Err(refusal) => {
            let number = refusal.number();
            println!(rt; "refused: {number}")
        }
    }
}

// The images whose targets are counted.
fn run_counts(rt: &impl Print, records: &[u8]) -> io::Result<()> {
    let forty = image_at(records, 1962);
    print_counts(rt, "forty nodes in 42 words", forty, &mut [7; 42])?;
    print_counts(rt, "in 39 words", forty, &mut [7; 39])?;
    print_counts(rt, "named child", image_at(records, 1030), &mut [7; 4])?;
    print_counts(rt, "story", image_at(records, 21292), &mut [7; 10])?;
    print_counts(
        rt,
        "a target outside",
        image_at(records, 21832),
        &mut [7; 10],
    )
}

fn main(rt: HostRuntime) -> io::Result<()> {
    let mut buffer = [0u8; 65536];
    let n = input::read_full(&mut rt.reader(), &mut buffer)?;
    run_counts(&rt, &buffer[..n])
}
