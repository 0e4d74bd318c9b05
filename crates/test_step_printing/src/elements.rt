// Prints a line `name place: number`, after a prefix, for each element of a field that a step changed. A place per client and volume, or per client and
// object, is two numbers.
ghost use Rattle.std.specs.Prelude.{◌+◌, ◌≤◌, ◌<◌};
ghost use Rattle.setup.specs.Limits.{SLOTS};
ghost use Rattle.state_words.specs.Fields.{WORDS};

use crate::lines::Prefix;
use setup::limits::{SLOTS, VOLUMES};
use state_words::{CLIENT_OBJECTS, Words};
use std::{fmt, io};

// How the elements of a field are counted: by one number, by client and volume, or by client and object.
#[derive(Clone, Copy)]
pub enum Count {
    One,
    Volumes,
    Objects,
}

// A field of the tables: its name, how its elements are counted, where it begins and how many there are.
#[derive(Clone, Copy)]
pub struct Field {
    pub name: &'static str,
    pub by: Count,
    pub from: usize,
    pub count: usize,
}

// A line's subject: an element of a field, as `name place`.
#[derive(Clone, Copy)]
struct Element {
    name: &'static str,
    by: Count,
    i: usize,
}

impl fmt::Display for Element {
    fn fmt<W: fmt::Write>(&self, f: &mut fmt::Formatter<W>) -> fmt::Result {
        let i = self.i;
        f.write_str(self.name)?;
        match self.by {
            Count::One => write!(f, " {i}"),
            Count::Volumes => write!(f, " {} {}", i / VOLUMES, i % VOLUMES),
            Count::Objects => write!(f, " {} {}", i / SLOTS, i % SLOTS),
        }
    }
}

// Prints a line if an element changed.
fn line<T: PartialEq + fmt::Display>(
    rt: &impl Print,
    prefix: Prefix,
    element: Element,
    before: &T,
    after: &T,
) -> io::Result<()> {
    if before == after {
        return Ok(());
    }
    println!(rt; "{prefix}{element}: {after}")
}

// Prints the changes among the elements of a field, in the words or in the values.
pub fn changes<T: PartialEq + fmt::Display>(
    rt: &impl Print,
    prefix: Prefix,
    field: &Field,
    before: &[T],
    after: &[T],
) -> io::Result<()> {
    let pairs = before.iter().zip(after).skip(field.from).take(field.count);
    for (i, (old, new)) in pairs.enumerate() {
        let place = Element {
            name: field.name,
            by: field.by,
            i,
        };
        line(rt, prefix, place, old, new)?;
    }
    Ok(())
}

fn member(set: u32, client: usize) -> u32
    requires { client < 32 }
{
    u32::from(sets::has(set, client))
}

// Prints the changes among the clients in the sets from `from` on, one per object.
pub fn members(
    rt: &impl Print,
    prefix: Prefix,
    name: &'static str,
    from: usize,
    before: &Words,
    after: &Words,
) -> io::Result<()>
    requires { from + SLOTS ≤ WORDS }
{
    for i in 0..CLIENT_OBJECTS {
        let object = from + i % SLOTS;
        let client = i / SLOTS;
        let old = member(before[object], client);
        let new = member(after[object], client);
        let place = Element {
            name,
            by: Count::Objects,
            i,
        };
        line(rt, prefix, place, &old, &new)?;
    }
    Ok(())
}
