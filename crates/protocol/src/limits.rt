// How many there are of each, and the last count of a stamp.

// "Clients are 1 to 16, servers 1 to 32, views 1 to 32, messages 1 to 1,023."
pub const CLIENTS: u8 = 16;

pub const SERVERS: u8 = 32;

pub const VIEWS: u8 = 32;

pub const MESSAGES: u16 = 1023;

pub const LAST_COUNT: u32 = 4294967295;
