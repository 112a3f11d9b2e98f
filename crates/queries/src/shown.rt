// Answers as they are printed.
use std::fmt;

// A word, or `-` where it is absent.
#[derive(Clone, Copy)]
pub struct ShownWord(pub Option<u32>);

impl fmt::Display for ShownWord {
    fn fmt<W: fmt::Write>(&self, f: &mut fmt::Formatter<W>) -> fmt::Result {
        match self.0 {
            Some(word) => write!(f, "{word}"),
            None => write!(f, "-"),
        }
    }
}

// A count, or that there is none.
#[derive(Clone, Copy)]
pub struct ShownCount(pub Option<u32>);

impl fmt::Display for ShownCount {
    fn fmt<W: fmt::Write>(&self, f: &mut fmt::Formatter<W>) -> fmt::Result {
        match self.0 {
            Some(n) => write!(f, "{n}"),
            None => write!(f, "no-18"),
        }
    }
}

// A node, or the number of what is not found.
#[derive(Clone, Copy)]
pub struct ShownNode(pub Option<u32>);

impl fmt::Display for ShownNode {
    fn fmt<W: fmt::Write>(&self, f: &mut fmt::Formatter<W>) -> fmt::Result {
        match self.0 {
            Some(node) => write!(f, "node {node}"),
            None => write!(f, "18"),
        }
    }
}
