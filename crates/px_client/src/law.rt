// The laws of the definitions.

ghost use Rattle.std.specs.Prelude.{◌≡◌, List, ℕ, [], ◌∷◌, ◌++◌, ◌<◌, ◌^◌, length, map, Ok};
ghost use Rattle.px_tag.specs.Item.{number};
ghost use Rattle.px_frame.specs.declared.frame.Frame.{Frame};
ghost use Rattle.px_frame.specs.Reading.{IsRead, Unfinished};
ghost use Rattle.px_cmd.specs.Meant.{meant};
ghost use Rattle.px_reply.specs.declared.info.InputInfo.{InputInfo};
ghost use Rattle.px_reply.specs.Front.{reply_to, refusal, message};
ghost use Rattle.px_reply.specs.Info.{inputs_reply};
ghost use Rattle.px_client.specs.declared.errand.Errand.{Errand};
ghost use Rattle.px_client.specs.declared.errand.Errand.TheVariants.{Volume};
ghost use Rattle.px_client.specs.declared.inputs.Input.{Input};
ghost use Rattle.px_client.specs.declared.awaited.Awaited.{Awaited};
ghost use Rattle.px_client.specs.declared.awaited.Awaited.TheVariants as awaits;
ghost use Rattle.px_client.specs.declared.answer.Verdict.TheVariants.{Message, Reply, Refusal};
ghost use Rattle.px_client.specs.Errand.{IsErrand, HasNumbers, controls_from, packets_for, auth_command, name_command, command_for, auth_packet, name_packet, errand_packet, sent_for};
ghost use Rattle.px_client.specs.Answers.{judged, tag_of};
ghost use Rattle.px_tag.specs.Law.{AreBytes};
ghost use Rattle.px_client.specs.Layout.{HasLayout};
ghost use Rattle.px_client.specs.Written.{shown, AreInfos};
ghost use Rattle.px_client.specs.Dialogue.{Done, stage_of};
ghost use Rattle.px_client.specs.Answered.{AreAnswers};

/// What the client sends are three frames. Read as the server reads them, the first at version 13 and the others at 18, their packets mean
/// that the client shows its cookie, that it says its name, and its errand. The function does nothing: its contract is the law.
pub fn errands_are_their_commands()
    ensures frames { (cookie : List ℕ) (errand : Errand) → length cookie ≡ 256 → IsErrand errand → IsRead (sent_for cookie errand) (controls_from 0 (packets_for cookie errand)) Unfinished }
    ensures auth { (cookie : List ℕ) → length cookie ≡ 256 → meant 13 (auth_packet cookie) ≡ Ok (auth_command cookie) }
    ensures name { meant 18 name_packet ≡ Ok name_command }
    ensures errand { (errand : Errand) → IsErrand errand → HasNumbers errand → meant 18 (errand_packet errand) ≡ Ok (command_for errand) }
    // The packet that sets the volume of input 0 to 32768, byte for byte.
    ensures volume { errand_packet (Volume 0 32768) ≡ 0x4C ∷ 0 ∷ 0 ∷ 0 ∷ 0x25 ∷ 0x4C ∷ 0 ∷ 0 ∷ 0 ∷ 2 ∷ 0x4C ∷ 0 ∷ 0 ∷ 0 ∷ 0 ∷ 0x76 ∷ 1 ∷ 0 ∷ 0 ∷ 0x80 ∷ 0 ∷ [] }
{}

/// What the client takes for an answer: each reply that the server writes is read as it was, an error with the awaited tag is a refusal with
/// its code, and a message answers nothing, whatever it says. Nothing else is taken for a reply. The function does nothing: its contract is the law.
pub fn answers_are_read_as_written()
    ensures version { (version : ℕ) → version < 2 ^ 32 → judged awaits.Version (reply_to 0 ++ number version) ≡ Reply [] }
    ensures client { (client : ℕ) → client < 2 ^ 32 → judged awaits.Client (reply_to 1 ++ number client) ≡ Reply [] }
    ensures nothing { judged awaits.Nothing (reply_to 2) ≡ Reply [] }
    ensures list { (infos : List InputInfo) → AreInfos infos → judged awaits.List (inputs_reply 2 infos) ≡ Reply (map shown infos) }
    ensures refusal { (awaited : Awaited) (code : ℕ) → code < 2 ^ 32 → judged awaited (refusal (tag_of awaited) code) ≡ Refusal code }
    ensures message { (awaited : Awaited) (command : ℕ) (fields : List ℕ) → command < 2 ^ 32 → judged awaited (message command ++ fields) ≡ Message }
    // What is taken for a reply has its layout, with any values in it.
    ensures layout { (awaited : Awaited) (packet : List ℕ) (inputs : List Input) → AreBytes packet → judged awaited packet ≡ Reply inputs → HasLayout awaited inputs packet }
{}

/// Where the frames that came bring the dialogue to its end, they begin, without the messages among them, with the replies to the three
/// commands in their order, and the inputs are those of the last. The function does nothing: its contract is the law.
pub fn replies_come_in_order()
    ensures { (errand : Errand) (frames : List Frame) (inputs : List Input) → stage_of errand frames ≡ Done inputs → AreAnswers errand frames inputs }
{}
