//! Objects as operands of nodes.
ghost use Rattle.std.specs.Prelude.{◌≡◌};
ghost use Rattle.std.specs.Option.{option_map};
ghost use Rattle.object_table.specs.Delay.{in_slot};
ghost use Rattle.graph_verify.specs.Operand.{operand_of};

use graph_verify::Operand;
use object_table::{Content, Object};

/// Returns an object as an operand.
pub fn operand_of(object: &Object) -> Operand
    ensures { result ≡ operand_of object.now }
{
    match object.content() {
        Content::Image(image) => Operand::Image(image.desc()),
        Content::Lut(lut) => Operand::Lut(lut.format()),
        Content::Threshold(threshold) => Operand::Threshold(threshold.format()),
        Content::Delay(_) => Operand::Delay,
        Content::Convolution(_) => Operand::Convolution,
        Content::Distribution(_) => Operand::Distribution,
        Content::Extremes(_) => Operand::Extremes,
        Content::Graph(_) => Operand::Graph,
        Content::Virtual(image) => Operand::Virtual(image.declared),
    }
}

/// Returns the image in a delay's slot as an operand, or the object itself if `slot` is `None`.
/// Returns `None` if the object has no such slot.
pub fn operand_in(object: &Object, slot: Option<u8>) -> Option<Operand>
    ensures { result ≡ option_map operand_of (in_slot slot object.now) }
{
    match (slot, object.content()) {
        (None, _) => Some(operand_of(object)),
        (Some(k), Content::Delay(delay)) => match delay.slot(k) {
            Ok(image) => Some(Operand::Image(image.desc())),
            Err(_) => None,
        },
        (Some(_), _) => None,
    }
}
