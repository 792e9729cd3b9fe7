// The words of a page, each in one place: the writer puts them, the reader compares them. The keys are
// those of specs/Page.antt, in its order.
use limits::{DISC, GENERAL, SCHEDULED, SUSPENDED};

pub const PAGE: [u8; 4] = *b"page";

pub const RTE2: [u8; 4] = *b"rte2";

pub const CLOCK: [u8; 5] = *b"clock";

pub const YEAR: [u8; 4] = *b"year";

pub const TRACKS: [u8; 6] = *b"tracks";

pub const SYSTEM: [u8; 6] = *b"system";

pub const NUMBERS: [u8; 7] = *b"numbers";

pub const PROGRAMS: [u8; 8] = *b"programs";

pub const ID: [u8; 2] = *b"id";

pub const NAME: [u8; 4] = *b"name";

pub const PRIORITY: [u8; 8] = *b"priority";

pub const STATE: [u8; 5] = *b"state";

pub const WHY: [u8; 3] = *b"why";

pub const DUE: [u8; 3] = *b"due";

pub const INTERVAL: [u8; 8] = *b"interval";

pub const SUSPEND: [u8; 7] = *b"suspend";

pub const MARK: [u8; 1] = *b"1";

pub const NONE: [u8; 1] = *b"-";

pub const FOR_TRACKS: [u8; 7] = *b"tracks:";

pub const FOR_SON: [u8; 4] = *b"son:";

pub const FOR_LOCK: [u8; 5] = *b"lock:";

pub const FOR_NUMBER: [u8; 6] = *b"number";

pub const CHAIN: [u8; 5] = *b"chain";

// The states whose chains are shown.
pub const CHAINED: [u8; 4] = [SCHEDULED, GENERAL, DISC, SUSPENDED];

pub const COMMA: [u8; 1] = *b",";

pub const HELD: [u8; 4] = *b"held";

pub const GLOBAL: [u8; 6] = *b"global";

pub const NUMBER: [u8; 6] = *b"number";

pub const END: [u8; 3] = *b"end";
