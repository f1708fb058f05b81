//! A law of the views.
ghost use Rattle.std.specs.Prelude.{◌≡◌};
ghost use Rattle.px_sample.specs.declared.spec.Spec.{Spec};
ghost use Rattle.px_sample.specs.Format.{frame_size_of};
ghost use Rattle.px_model.specs.Frame.{frame_size};
ghost use Rattle.px_msg.specs.View.{sample_spec};

/// The model's frame size, by the code of a format, is the frame size of the format itself. Source: own.
pub fn views_agree()
    ensures { (spec : Spec) → frame_size (sample_spec spec) ≡ frame_size_of spec }
{}
