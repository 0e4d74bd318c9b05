// Reads run files made by hand from 01's layout and 02, A6 and A7. Prints a line for each: the refusal, the note's length and bytes, the setup with its first and
// last volume byte, the number of steps and where they begin. For some files it also prints the first and the last step, and what is read after them.
#![tactic(auto)]

mod show;

ghost use Rattle.std.specs.Prelude.{◌<◌};

use std::io;

// Returns the smallest run file: a setup (1 client, 1 volume, 1 object, tv 10, t 100, m 3, delay 1) and a trailer.
fn smallest() -> [u8; 56] {
    let mut f = [0u8; 56];
    f[0] = 1;
    f[1] = 1;
    f[2] = 1;
    f[4] = 10;
    f[8] = 100;
    f[12] = 3;
    f[44] = 1;
    f[52] = 56;
    f
}

// Reads the smallest file with one byte changed.
fn changed(rt: &impl Print, at: usize, b: u8) -> io::Result<()>
    requires { at < 56 }
{
    let mut f = smallest();
    f[at] = b;
    show::file(rt, &f)
}

fn small(rt: &impl Print) -> io::Result<()> {
    let f = smallest();
    show::file(rt, &f)?;
    // one byte missing at the front, then at the end
    show::file(rt, show::cut(&f, 1, 56))?;
    show::file(rt, show::cut(&f, 0, 55))?;
    show::file(rt, b"")?;
    // counts of clients, volumes and objects; the 0 after them; tv; a volume that does not exist; a volume byte past the objects
    changed(rt, 0, 0)?;
    changed(rt, 0, 16)?;
    changed(rt, 0, 17)?;
    changed(rt, 1, 9)?;
    changed(rt, 2, 28)?;
    changed(rt, 2, 29)?;
    changed(rt, 3, 1)?;
    changed(rt, 4, 0)?;
    changed(rt, 16, 1)?;
    changed(rt, 43, 1)?;
    // step count and distance
    changed(rt, 48, 1)?;
    changed(rt, 52, 55)?;
    changed(rt, 52, 57)?;
    changed(rt, 52, 72)?;
    changed(rt, 55, 1)
}

// Reads the smallest file with these four bytes after the volume bytes.
fn delayed(rt: &impl Print, a: u8, b: u8, c: u8, d: u8) -> io::Result<()> {
    let mut f = smallest();
    f[44] = a;
    f[45] = b;
    f[46] = c;
    f[47] = d;
    show::file(rt, &f)
}

fn delays(rt: &impl Print) -> io::Result<()> {
    // 0, as in a file from before delays; 513; 65,535; 65,536; 16,777,217
    delayed(rt, 0, 0, 0, 0)?;
    delayed(rt, 1, 2, 0, 0)?;
    delayed(rt, 255, 255, 0, 0)?;
    delayed(rt, 0, 0, 1, 0)?;
    delayed(rt, 1, 0, 0, 1)
}

// Returns a file of 90 bytes with one byte too many after it: a note of two bytes, the same setup, and two steps (clock 258; write the value 2 to the
// 56th + 7 to object 0).
fn two_steps() -> [u8; 91] {
    let mut f = [0u8; 91];
    f[0] = b'h';
    f[1] = b'i';
    f[2] = 1;
    f[3] = 1;
    f[4] = 1;
    f[6] = 10;
    f[10] = 100;
    f[14] = 3;
    f[46] = 1;
    f[50] = 1;
    f[54] = 2;
    f[55] = 1;
    f[66] = 4;
    f[74] = 7;
    f[81] = 1;
    f[82] = 2;
    f[86] = 88;
    f
}

// Reads the file of two steps with one byte changed.
fn changed_step(rt: &impl Print, at: usize, b: u8) -> io::Result<()>
    requires { at < 91 }
{
    let mut f = two_steps();
    f[at] = b;
    show::file(rt, show::cut(&f, 0, 90))
}

fn steps(rt: &impl Print) -> io::Result<()> {
    let f = two_steps();
    show::file(rt, show::cut(&f, 0, 90))?;
    show::file(rt, &f)?;
    show::steps(rt, show::cut(&f, 0, 90))
}

fn step_fields(rt: &impl Print) -> io::Result<()> {
    // fields that a clock step and a write do not use, then one that a write uses
    changed_step(rt, 51, 1)?;
    changed_step(rt, 52, 1)?;
    changed_step(rt, 53, 1)?;
    changed_step(rt, 58, 1)?;
    changed_step(rt, 67, 1)?;
    changed_step(rt, 69, 1)?;
    changed_step(rt, 70, 1)?;
    changed_step(rt, 68, 200)?;
    // a step of an unknown kind may hold anything
    changed_step(rt, 50, 0)?;
    changed_step(rt, 66, 12)
}

// Returns the file of two steps with others in it: a save under name 3 and a return to it.
fn save_and_return() -> [u8; 91] {
    let mut f = two_steps();
    f[50] = 10;
    f[53] = 3;
    f[54] = 0;
    f[55] = 0;
    f[66] = 11;
    f[69] = 3;
    f[74] = 0;
    f[81] = 0;
    f
}

// Reads the file of a save and a return with one byte changed.
fn changed_name(rt: &impl Print, at: usize, b: u8) -> io::Result<()>
    requires { at < 91 }
{
    let mut f = save_and_return();
    f[at] = b;
    show::file(rt, show::cut(&f, 0, 90))
}

fn names(rt: &impl Print) -> io::Result<()> {
    let f = save_and_return();
    show::file(rt, show::cut(&f, 0, 90))?;
    show::steps(rt, show::cut(&f, 0, 90))?;
    // a save with a client, an object, a clock and a value, then a return
    changed_name(rt, 51, 1)?;
    changed_name(rt, 52, 1)?;
    changed_name(rt, 57, 1)?;
    changed_name(rt, 58, 1)?;
    changed_name(rt, 67, 1)?;
    changed_name(rt, 68, 1)?;
    changed_name(rt, 70, 1)?;
    changed_name(rt, 81, 1)?;
    // the shape allows any name
    changed_name(rt, 53, 4)?;
    changed_name(rt, 69, 200)
}

// Reads the same file with a step of kind 12, which is unknown and may hold anything, in place of the return.
fn unknown_kind(rt: &impl Print) -> io::Result<()> {
    let mut f = save_and_return();
    f[66] = 12;
    f[67] = 255;
    f[68] = 254;
    f[69] = 253;
    f[70] = 252;
    f[81] = 251;
    show::file(rt, show::cut(&f, 0, 90))?;
    show::steps(rt, show::cut(&f, 0, 90))
}

// Reads a file whose note is itself a run file: the setup is found from the end.
fn note_like_a_file(rt: &impl Print) -> io::Result<()> {
    let mut f = [0u8; 112];
    f[0] = 1;
    f[1] = 1;
    f[2] = 1;
    f[4] = 10;
    f[8] = 100;
    f[12] = 3;
    f[44] = 1;
    f[52] = 56;
    f[56] = 2;
    f[57] = 1;
    f[58] = 1;
    f[60] = 20;
    f[64] = 200;
    f[68] = 6;
    f[100] = 2;
    f[108] = 56;
    show::file(rt, &f)?;
    // a trailer that points at the note's setup
    f[108] = 112;
    show::file(rt, &f)
}

// Reads a file whose note has unusual bytes: zeros at both ends, 255, a newline, a carriage return, a digit, a quote and a two-byte character.
fn note_of_any_bytes(rt: &impl Print) -> io::Result<()> {
    let mut f = [0u8; 65];
    f[1] = 255;
    f[2] = 10;
    f[3] = 13;
    f[4] = 48;
    f[5] = 34;
    f[6] = 195;
    f[7] = 128;
    f[9] = 1;
    f[10] = 1;
    f[11] = 1;
    f[13] = 10;
    f[17] = 100;
    f[21] = 3;
    f[53] = 1;
    f[61] = 56;
    show::file(rt, &f)?;
    // one byte missing at the front, where the note loses it, then at the end, where the trailer does
    show::file(rt, show::cut(&f, 1, 65))?;
    show::file(rt, show::cut(&f, 0, 64))?;
    // the whole note missing
    show::file(rt, show::cut(&f, 9, 65))
}

// Returns one byte too many, then the largest file: 65,536 bytes, with a note of 1,480 bytes and 4,000 steps, the last of which delivers place 63.
fn largest() -> [u8; 65537] {
    let mut f = [0u8; 65537];
    f[0] = 7;
    f[1] = 255;
    f[1479] = 10;
    f[1480] = 254;
    f[1481] = 16;
    f[1482] = 8;
    f[1483] = 28;
    f[1485] = 16;
    f[1486] = 14;
    f[1489] = 64;
    f[1490] = 66;
    f[1491] = 15;
    f[1493] = 60;
    f[1497] = 7;
    f[1524] = 7;
    f[1525] = 255;
    f[1526] = 255;
    f[65513] = 5;
    f[65516] = 63;
    f[65529] = 160;
    f[65530] = 15;
    f[65533] = 56;
    f[65534] = 250;
    f
}

fn large(rt: &impl Print) -> io::Result<()> {
    let f = largest();
    show::file(rt, show::cut(&f, 1, 65537))?;
    show::file(rt, &f)?;
    show::steps(rt, show::cut(&f, 1, 65537))
}

// Reads a file of 4,001 steps that is otherwise right.
fn too_many_steps(rt: &impl Print) -> io::Result<()> {
    let mut f = [0u8; 64072];
    f[0] = 1;
    f[1] = 1;
    f[2] = 1;
    f[4] = 10;
    f[8] = 100;
    f[12] = 3;
    f[44] = 1;
    f[64064] = 161;
    f[64065] = 15;
    f[64068] = 72;
    f[64069] = 250;
    show::file(rt, &f)
}

fn main(rt: HostRuntime) -> io::Result<()> {
    small(&rt)?;
    delays(&rt)?;
    steps(&rt)?;
    step_fields(&rt)?;
    names(&rt)?;
    unknown_kind(&rt)?;
    note_like_a_file(&rt)?;
    note_of_any_bytes(&rt)?;
    large(&rt)?;
    too_many_steps(&rt)
}
