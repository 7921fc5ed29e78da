// The numbers of the code lists.
pub const STATUS: usize = 0;

pub const MSG_TYPE: usize = 1;

pub const SCOPE: usize = 2;

pub const CATEGORY: usize = 3;

pub const RESPONSE_TYPE: usize = 4;

pub const URGENCY: usize = 5;

pub const SEVERITY: usize = 6;

pub const CERTAINTY: usize = 7;
