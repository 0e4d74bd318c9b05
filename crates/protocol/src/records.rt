// A client's copy of an object. Version 0 is no copy. All clients' copies are one lent list, client by client in object order.
// Kept: a version of 0 says that there is no copy, since the public step is lent such records and the theorems speak of them (`no_copy` of specs/Tables.antt).
#[derive(Clone, Copy, PartialEq, Eq)]
pub struct Copy {
    pub version: u32,
    pub value: u64,
    pub expiry: u32,
}

// A client's request counter and standing request. Where none stands, `number` and `object` are free; in a run from fresh tables they are 0.
// Kept: a flag beside number and object, since a record lent to the public step may hold any number where none stands, and the theorems speak of all three.
#[derive(Clone, Copy, PartialEq, Eq)]
pub struct Request {
    pub next: u32,
    pub standing: bool,
    pub number: u32,
    pub object: u8,
}
