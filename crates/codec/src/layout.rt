// Widths and places of the format, each named once: a place is the one before it and the width of what stands there.
use protocol::limits::{CLIENTS, MESSAGES, SERVERS, VIEWS};

// "version 3"
pub const VERSION: u16 = 3;

// The widths of numbers.
pub const U8: usize = 1;

pub const U16: usize = 2;

pub const U32: usize = 4;

// "Entry, 12: count u32, writer u8, 3 zero bytes, value u32." No zero bytes end it.
pub const COUNT_AT: usize = 0;

pub const WRITER_AT: usize = COUNT_AT + U32;

pub const ENTRY_SPARE_AT: usize = WRITER_AT + U8;

pub const ENTRY_SPARE: usize = 3;

pub const VALUE_AT: usize = ENTRY_SPARE_AT + ENTRY_SPARE;

pub const ENTRY_REST_AT: usize = VALUE_AT + U32;

pub const ENTRY_REST: usize = 0;

pub const ENTRY: usize = ENTRY_REST_AT + ENTRY_REST;

// "View: member bits u32 (bit s-1 is server s), f u8, 3 zero."; "a read size r in the first of its zero bytes"
pub const MEMBERS_AT: usize = 0;

pub const THRESHOLD_AT: usize = MEMBERS_AT + U32;

pub const READ_SIZE_AT: usize = THRESHOLD_AT + U8;

pub const VIEW_SPARE_AT: usize = READ_SIZE_AT + U8;

pub const VIEW_SPARE: usize = 2;

pub const VIEW: usize = VIEW_SPARE_AT + VIEW_SPARE;

// "for each view a byte with the number of its faulty key holders"
pub const HOLDER: usize = U8;

// "Server: view u8 (0 none yet), faulty u8, 2 zero, key bits u32 (bit t-1), entry."
pub const SERVER_VIEW_AT: usize = 0;

pub const FAULTY_AT: usize = SERVER_VIEW_AT + U8;

pub const SERVER_SPARE_AT: usize = FAULTY_AT + U8;

pub const SERVER_SPARE: usize = 2;

pub const KEYS_AT: usize = SERVER_SPARE_AT + SERVER_SPARE;

pub const SERVER_ENTRY_AT: usize = KEYS_AT + U32;

pub const SERVER: usize = SERVER_ENTRY_AT + ENTRY;

// "0 idle, 1 reading, 2 writing"
pub const LAST_PHASE: u8 = 2;

// "Client: phase u8 (0 idle, 1 reading, 2 writing), kind u8 ..., request u16 (0 when idle), entry."; "The client record ends with
// the latter (u32)": the largest count that it ever gave a write of its own.
pub const PHASE_AT: usize = 0;

pub const CLIENT_KIND_AT: usize = PHASE_AT + U8;

pub const CLIENT_REQUEST_AT: usize = CLIENT_KIND_AT + U8;

pub const CLIENT_ENTRY_AT: usize = CLIENT_REQUEST_AT + U16;

pub const GIVEN_AT: usize = CLIENT_ENTRY_AT + ENTRY;

pub const CLIENT: usize = GIVEN_AT + U32;

// "Message: kind u8 ..., sender u8 ..., view u8 ..., taken u8 (0 or 1) and request u16 ..., next u16 ..., entry"
pub const MESSAGE_KIND_AT: usize = 0;

pub const SENDER_AT: usize = MESSAGE_KIND_AT + U8;

pub const MESSAGE_VIEW_AT: usize = SENDER_AT + U8;

pub const TAKEN_AT: usize = MESSAGE_VIEW_AT + U8;

pub const MESSAGE_REQUEST_AT: usize = TAKEN_AT + U8;

pub const NEXT_AT: usize = MESSAGE_REQUEST_AT + U16;

pub const MESSAGE_ENTRY_AT: usize = NEXT_AT + U16;

pub const MESSAGE: usize = MESSAGE_ENTRY_AT + ENTRY;

// The administrator's record: "newest view u8, ending u8 (0 or 1), END number u16 (0 unless ending)"
pub const NEWEST_AT: usize = 0;

pub const ENDING_AT: usize = NEWEST_AT + U8;

pub const END_AT: usize = ENDING_AT + U8;

pub const ADMINISTRATOR: usize = END_AT + U16;

// "Header: version u16, messages used u16, newest view u8, ending u8 (0 or 1), END number u16 (0 unless ending), 8 zero bytes."
pub const VERSION_AT: usize = 0;

pub const USED_AT: usize = VERSION_AT + U16;

pub const ADMINISTRATOR_AT: usize = USED_AT + U16;

pub const HEADER_SPARE_AT: usize = ADMINISTRATOR_AT + ADMINISTRATOR;

pub const HEADER_SPARE: usize = 8;

pub const HEADER: usize = HEADER_SPARE_AT + HEADER_SPARE;

// "Step, 12 bytes: kind u8, who u8, view u8, f u8, message u16, source u16, value u32."
pub const STEP_KIND_AT: usize = 0;

pub const WHO_AT: usize = STEP_KIND_AT + U8;

pub const STEP_VIEW_AT: usize = WHO_AT + U8;

pub const STEP_THRESHOLD_AT: usize = STEP_VIEW_AT + U8;

pub const STEP_MESSAGE_AT: usize = STEP_THRESHOLD_AT + U8;

pub const SOURCE_AT: usize = STEP_MESSAGE_AT + U16;

pub const STEP_VALUE_AT: usize = SOURCE_AT + U16;

pub const STEP: usize = STEP_VALUE_AT + U32;

// "header 16; views 1 to 32 ...; servers 1 to 32 ...; clients 1 to 16 ...; messages 0 to 1,023", and "32 bytes after the views":
// where each group begins
pub const VIEWS_AT: usize = HEADER;

pub const HOLDERS_AT: usize = VIEWS_AT + (VIEWS as usize) * VIEW;

pub const SERVERS_AT: usize = HOLDERS_AT + (VIEWS as usize) * HOLDER;

pub const CLIENTS_AT: usize = SERVERS_AT + (SERVERS as usize) * SERVER;

pub const MESSAGES_AT: usize = CLIENTS_AT + (CLIENTS as usize) * CLIENT;

pub const IMAGE: usize = MESSAGES_AT + (MESSAGES as usize + 1) * MESSAGE;

// "An image": the bytes of a world.
pub type Image = [u8; IMAGE];
