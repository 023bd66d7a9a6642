// The numbers that tell chunks, the causes of an ABORT or an ERROR, and the parameters that we write apart.

// The types of chunks (RFC 9260 section 3.2, table 1). `kind::Kind` is read from them; a writer takes the number, since an unknown kind has none of its own.
pub const DATA: u8 = 0;

pub const INIT: u8 = 1;

pub const INIT_ACK: u8 = 2;

pub const SACK: u8 = 3;

pub const HEARTBEAT: u8 = 4;

pub const HEARTBEAT_ACK: u8 = 5;

pub const ABORT: u8 = 6;

pub const SHUTDOWN: u8 = 7;

pub const SHUTDOWN_ACK: u8 = 8;

pub const ERROR: u8 = 9;

pub const COOKIE_ECHO: u8 = 10;

pub const COOKIE_ACK: u8 = 11;

pub const SHUTDOWN_COMPLETE: u8 = 14;

// The codes of causes (section 3.3.10, table 12).
pub const INVALID_STREAM: u16 = 1;

pub const STALE_COOKIE: u16 = 3;

pub const UNRESOLVABLE_ADDRESS: u16 = 5;

pub const UNKNOWN_CHUNK: u16 = 6;

pub const UNKNOWN_PARAMETERS: u16 = 8;

pub const NO_USER_DATA: u16 = 9;

pub const COOKIE_SHUTTING: u16 = 10;

pub const USER_ABORT: u16 = 12;

pub const PROTOCOL_VIOLATION: u16 = 13;

// The types of parameters that we write (sections 3.3.5 and 3.3.3), and of a Host Name (3.3.2.1).
pub const HEARTBEAT_INFO: u16 = 1;

pub const STATE_COOKIE: u16 = 7;

pub const UNKNOWN_PARAMETER: u16 = 8;

pub const HOST_NAME: u16 = 11;
