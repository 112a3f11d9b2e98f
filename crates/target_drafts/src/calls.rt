// Calls on a draft and the summary beside it: its targets are counted, or one of them is set.
ghost use Rattle.std.specs.Prelude.{◌≤◌};

use draft_records::{Changes, Draft};
use draft_words::{after, after_words, read_words};
use image::refusal::number_of;
use std::{fmt, io};

// How many words of a summary are lent, and how many calls there are.
#[derive(Clone, Copy)]
pub struct CallLengths {
    pub summary: u32,
    pub calls: u32,
}

impl CallLengths {
    pub const BYTES: usize = 8;

    pub fn read(bytes: &[u8]) -> CallLengths {
        CallLengths {
            summary: words::get(bytes, 0),
            calls: words::get(bytes, 4),
        }
    }

    // How many bytes the summary and the calls have.
    pub fn bytes_behind(&self) -> usize
        ensures { result ≤ 100000000000 }
    {
        4 * (self.summary as usize + 3 * self.calls as usize)
    }
}

#[derive(Clone, Copy)]
enum Call {
    Count,
    Set { node: u32, target: u32 },
}

impl Call {
    // The call at a place, of those that bytes begin with: its kind, 0 for a count; node and target.
    fn read(calls: &[u8], place: u32) -> Call {
        let call = after(calls, 12 * place as usize);
        if words::get(call, 0) == 0 {
            return Call::Count;
        }
        Call::Set {
            node: words::get(call, 4),
            target: words::get(call, 8),
        }
    }

    // Counts the targets of a draft, or sets one; answers the number.
    fn run(self, draft: &Draft<'_>, nodes: &mut [u32], summary: &mut [u32]) -> u32 {
        let slices = draft.slices();
        number_of(match self {
            Call::Count => target_counts::count_draft_targets(slices.with_nodes(nodes), summary),
            Call::Set { node, target } => target_changes::set_target(
                nodes,
                slices.children,
                slices.named,
                slices.definitions,
                slices.items,
                slices.payload,
                slices.strings,
                summary,
                node,
                target,
            ),
        })
    }
}

impl fmt::Display for Call {
    fn fmt<W: fmt::Write>(&self, f: &mut fmt::Formatter<W>) -> fmt::Result {
        match *self {
            Call::Count => write!(f, " counted:"),
            Call::Set { node, target } => write!(f, " {node} to {target}:"),
        }
    }
}

// The calls of a record on its draft, and on the summary that comes before them. Of each a line is printed: its number, the node words that
// have changed, and the summary.
pub fn run(
    rt: &impl Print,
    draft: &Draft<'_>,
    lengths: CallLengths,
    nodes: &mut [u32],
) -> io::Result<()> {
    if lengths.calls == 0 {
        return Ok(());
    }
    let mut words = [0; 16];
    read_words(draft.behind, &mut words);
    let Some(summary) = words.get_mut(..lengths.summary as usize) else {
        return print!(rt; " lends too many words of a summary");
    };
    let calls = after_words(draft.behind, lengths.summary);
    for place in 0..lengths.calls {
        let call = Call::read(calls, place);
        let number = call.run(draft, nodes, summary);
        let changes = Changes {
            before: &draft.nodes,
            nodes,
        };
        print!(rt; "{call} {number}{changes},")?;
        print_words(rt, summary)?;
        println!(rt)?;
    }
    Ok(())
}

// The words, each behind a space.
fn print_words(rt: &impl Print, words: &[u32]) -> io::Result<()> {
    for word in words {
        print!(rt; " {word}")?;
    }
    Ok(())
}
