// Offsets of the clients' fields: what each client knows of each volume; the copies, client by client in object order; one request per client.

// "per volume epoch and expiry"
pub const VIEW_EPOCH: usize = 1930;

pub const VIEW_EXPIRY: usize = 2058;

// "per object version (0 is no copy), .. expiry"
pub const COPY_VERSION: usize = 2186;

pub const COPY_EXPIRY: usize = 2698;

// "next request number (fresh 1)"
pub const REQUEST_NEXT: usize = 3210;

// "standing request, none or number with object"
pub const REQUEST_STANDING: usize = 3226;

pub const REQUEST_NUMBER: usize = 3242;

pub const REQUEST_OBJECT: usize = 3258;

// in the values: "per object version .., value", one per copy
pub const COPY_VALUE: usize = 128;
