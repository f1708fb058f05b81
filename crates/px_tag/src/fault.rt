//! Why an item could not be read.

ghost use Rattle.std.specs.Prelude.{◌≡◌};
ghost use Rattle.px_tag.specs.declared.fault.ListFault.TheVariants.{Tag, NoMemory as OutOfMemory};

use crate::memory::NoMemory;

/// The first fault in the bytes from left to right, with its offset in bytes from the packet's start. The checks are those of
/// `pulsecore/tagstruct.c`; that a fault has an offset is own.
#[derive(Clone, Copy, Debug, PartialEq, Eq)]
pub enum TagFault {
    /// A wrong byte is in the tag's place, which is `at`.
    WrongTag { at: usize },
    /// The packet ends inside the item; `at` is the packet's length.
    Short { at: usize },
    /// The item breaks a rule of its kind; `at` is the place of its tag.
    BadValue { at: usize },
    /// Bytes are left after the last item; `at` is the first of them.
    Left { at: usize },
}

/// Why a property list could not be read.
#[derive(Clone, Copy, Debug, PartialEq, Eq)]
pub enum ListFault {
    /// No property list is there.
    Tag(TagFault),
    /// Memory ran out.
    NoMemory,
}

impl From<TagFault> for ListFault {
    ghost from_gives = { λ fault e. e ≡ Tag fault };

    fn from(fault: TagFault) -> ListFault {
        ListFault::Tag(fault)
    }
}

impl From<NoMemory> for ListFault {
    ghost from_gives = { λ _ e. e ≡ OutOfMemory };

    fn from(_error: NoMemory) -> ListFault {
        ListFault::NoMemory
    }
}
