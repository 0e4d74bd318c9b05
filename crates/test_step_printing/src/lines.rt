// The pieces of lines.
use message_fields::Fields;
use std::fmt;

// What a line about a state begins with.
#[derive(Clone, Copy)]
pub enum Prefix {
    Present,
    // the state under this name
    Saved(usize),
}

impl fmt::Display for Prefix {
    fn fmt<W: fmt::Write>(&self, f: &mut fmt::Formatter<W>) -> fmt::Result {
        match self {
            Prefix::Present => f.write_str("  "),
            Prefix::Saved(name) => write!(f, "  saved {name} "),
        }
    }
}

// A message's ten fields, in the frame's order, each after a space.
#[derive(Clone, Copy)]
pub struct Row(pub Fields);

impl fmt::Display for Row {
    fn fmt<W: fmt::Write>(&self, f: &mut fmt::Formatter<W>) -> fmt::Result {
        let m = self.0;
        write!(
            f,
            " {} {} {} {} {}",
            m.kind, m.client, m.object, m.present, m.number
        )?;
        write!(
            f,
            " {} {} {} {} {}",
            m.volume_expiry, m.epoch, m.version, m.object_expiry, m.value
        )
    }
}
