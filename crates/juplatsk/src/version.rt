// The version of the exported functions. include/juplatsk.h and rust/Cargo.toml say it too, and turn a caller away before a call of another
// major or minor: these may take other arguments, read lists or records in another way, or answer otherwise; a patch is called and answers
// as before. Minor and patch stay below 100.
const MAJOR: u32 = 0;

const MINOR: u32 = 6;

const PATCH: u32 = 0;

pub(crate) const VERSION: u32 = 10000 * MAJOR + 100 * MINOR + PATCH;
