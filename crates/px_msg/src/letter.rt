//! Which lists of messages and notices are lawful, for the mailboxes that carry them.

ghost use Rattle.std.specs.Prelude.{◌≡◌, List, [], ◌++◌, map};
ghost use Rattle.px_model.specs.Frame.{SampleSpec};
ghost use Rattle.px_model.specs.Orderly.{IsOrderly, inputs_left_by};
ghost use Rattle.px_msg.specs.declared.message.Msg.{Msg};
ghost use Rattle.px_msg.specs.View.{message_of};
ghost use Rattle.px_msg.specs.Letters.{AreLawful, inputs_after};

use crate::{Msg, Notice, Parcel};
use px_mail::Letter;
use px_sample::Spec;

/// Messages are lawful under the sample spec of their sink where they fit a sink that has no inputs yet, in order.
impl<P: Parcel> Letter for Msg<P> {
    ghost use Rattle.px_msg.specs.View.{sample_spec};
    ghost use Rattle.px_msg.specs.Letters.{AreLawful};

    type Key = Spec;

    ghost lawful = { λ sink messages. AreLawful P.spec_of (sample_spec sink) messages };

    ghost begins = { λ sink. tt };
}

/// All lists of notices are lawful.
impl<P> Letter for Notice<P> {
    ghost use Rattle.std.specs.Prelude.{⊤};

    type Key = ();

    ghost lawful = { λ key notices. ⊤ };

    ghost begins = { λ key. tt };
}

/// No messages are lawful, and so is each prefix of lawful ones. Messages are lawful exactly where a prefix of them is and the others are orderly
/// from the inputs that it leaves. It does nothing: its contract is the law. Source: own.
pub fn lawful_messages_go_on<P>()
    ensures none { (spec_of : P → SampleSpec) (sink : SampleSpec) → AreLawful spec_of sink [] }
    ensures front { (spec_of : P → SampleSpec) (sink : SampleSpec) (earlier later : List (Msg P))
        → AreLawful spec_of sink (earlier ++ later) → AreLawful spec_of sink earlier }
    ensures goes_on { (spec_of : P → SampleSpec) (sink : SampleSpec) (earlier later : List (Msg P))
        → AreLawful spec_of sink (earlier ++ later) → IsOrderly spec_of sink (inputs_after spec_of earlier) (map (message_of (λ p. p)) later) }
    ensures joins { (spec_of : P → SampleSpec) (sink : SampleSpec) (earlier later : List (Msg P))
        → AreLawful spec_of sink earlier → IsOrderly spec_of sink (inputs_after spec_of earlier) (map (message_of (λ p. p)) later)
        → AreLawful spec_of sink (earlier ++ later) }
    ensures inputs { (spec_of : P → SampleSpec) (earlier later : List (Msg P))
        → inputs_after spec_of (earlier ++ later) ≡ inputs_left_by spec_of (inputs_after spec_of earlier) (map (message_of (λ p. p)) later) }
{}
