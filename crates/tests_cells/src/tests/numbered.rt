use px_annals::{LaneEntry, PlainMsg};

// Whether a message is the factor 1 for input `number`, and nothing else.
fn is_for(message: &PlainMsg, number: u32) -> bool {
    match message {
        PlainMsg::Factors(list) => matches!(
            list.as_slice(),
            [one] if one.input == number && one.factors.as_slice() == [65_536].as_slice()
        ),
        _ => false,
    }
}

/// The number after those of an entry's messages, where these are numbered from `from` on in order.
pub fn number_after(entry: &LaneEntry, from: u32) -> Option<u32> {
    let mut number = from;
    for message in entry.messages.as_slice() {
        if !is_for(message, number) {
            return None;
        }
        number = number.checked_add(1)?;
    }
    Some(number)
}
