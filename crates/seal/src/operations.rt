// The operations that the page calls, by their names in the documents.
use std::fmt;

#[derive(Clone, Copy, Debug, PartialEq, Eq)]
pub enum Operation {
    HouseFit,
    Split,
    Join,
    Block,
    WatchBlock,
    Open,
    AesBlock,
    Encrypt,
    Decrypt,
}

impl fmt::Display for Operation {
    fn fmt<W: fmt::Write>(&self, f: &mut fmt::Formatter<W>) -> fmt::Result {
        f.write_str(match self {
            Operation::HouseFit => "House fit",
            Operation::Split => "Split",
            Operation::Join => "Join",
            Operation::Block => "Block",
            Operation::WatchBlock => "Watch block",
            Operation::Open => "Open",
            Operation::AesBlock => "AES block",
            Operation::Encrypt => "Encrypt",
            Operation::Decrypt => "Decrypt",
        })
    }
}
