//! Laws of the formats that a function takes.
ghost use Rattle.std.specs.Prelude.{IsTrue, Option, Some};
ghost use Rattle.vx_base.specs.declared.format.Format.{Format};
ghost use Rattle.vx_base.specs.declared.function.Function.{Function};
ghost use Rattle.vx_base.specs.Formats.{takes_formats, open_format};

/// If a function can write an image from inputs of given formats, then the image may have the
/// format that `open_format` gives.
pub fn open_formats_suffice()
    ensures { (function : Function) (first output : Format) (second : Option Format) →
        IsTrue (takes_formats function first second (Some output)) →
        IsTrue (takes_formats function first second (Some (open_format function first))) }
{}
