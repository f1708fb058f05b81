//! The tag bytes, as `pulsecore/tagstruct.h` has them.

pub(crate) const NUMBER: u8 = b'L';

pub(crate) const BYTE: u8 = b'B';

pub(crate) const WIDE: u8 = b'R';

pub(crate) const SIGNED: u8 = b'r';

pub(crate) const USEC: u8 = b'U';

pub(crate) const VOLUME: u8 = b'V';

pub(crate) const TRUE: u8 = b'1';

pub(crate) const FALSE: u8 = b'0';

pub(crate) const STRING: u8 = b't';

pub(crate) const NULL_STRING: u8 = b'N';

pub(crate) const ARBITRARY: u8 = b'x';

pub(crate) const SPEC: u8 = b'a';

pub(crate) const MAP: u8 = b'm';

pub(crate) const VOLUMES: u8 = b'v';

pub(crate) const TIME: u8 = b'T';

pub(crate) const PROPLIST: u8 = b'P';
