//! Objects that a client holds.
ghost use Rattle.std.specs.Prelude.{◌≡◌, ◌≤◌, ◌*◌, ◌==◌, not, if◌then◌else◌, IsTrue, [], is_some};
ghost use Rattle.std.specs.Prelude.{length, find, Some, IfOk, IfErr, OnOk, OnErr};
ghost use Rattle.std.specs.Result.{is_err};
ghost use Rattle.vx_base.specs.declared.kind.Kind.TheVariants as kind;
ghost use Rattle.vx_base.specs.Description.{sample_count};
ghost use Rattle.vx_base.specs.Rectangle.{IsWithin};
ghost use Rattle.vx_base.specs.Image.{IsImage, description_of, with_valid};
ghost use Rattle.std.specs.Prelude.{◌≢◌};
ghost use Rattle.std.specs.List.{AllPairs};
ghost use Rattle.vx_base.specs.Graph.{IsGraph, can_add, with_node, has_node, without_node};
ghost use Rattle.vx_base.specs.Graph.{with_delays};
ghost use Rattle.vx_base.specs.Object.{ImageObject, DelayObject, ExtremesObject, GraphObject};
ghost use Rattle.vx_base.specs.Object.{IsObject, object_bytes, object_kind};
ghost use Rattle.vx_base.specs.Picture.{values, samples_format, picture_image};
ghost use Rattle.pixel_pool.specs.Block.{IsAllOrNone};
ghost use Rattle.object_table.specs.Blocks.{object_blocks, LendsAtLeast, LendsLess};
ghost use Rattle.object_table.specs.Delay.{in_slot, object_in, slot_kind, with_slot, HasImage};
ghost use Rattle.object_table.specs.Object.{value_of, image_value, distribution_value, graph_value};
ghost use Rattle.object_table.specs.Object.{aged_object, with_samples, with_counts};
ghost use Rattle.graph_verify.specs.declared.fault.GraphFault.TheVariants.{NoMemory, NoResources};
ghost use Rattle.graph_verify.specs.declared.fault.GraphFault.TheVariants.{InvalidReference};
ghost use Rattle.vx_base.specs.declared.desc.TheConstants.{GREATEST_BYTES};
ghost use Rattle.vx_base.specs.declared.slots.TheConstants.{GREATEST_SLOTS};

use crate::delay::Delay;
use crate::distribution::Distribution;
use crate::stored::Stored;
use graph_verify::{Graph, GraphFault};
use pixel_pool::Pool;
use std::marker::Model;
use vx_base::{
    Convolution, Desc, Extremes, Kind, Lut, NodeSpec, Picture, Rect, Samples, ThresholdRule,
    VirtualImage,
};

/// An object that a client holds under a name.
#[derive(Drop)]
pub struct Object {
    content: Content,
}

/// The content of an object, by the kind of the object.
#[derive(Drop)]
pub enum Content {
    Image(Stored),
    Lut(Lut),
    Threshold(ThresholdRule),
    Delay(Delay),
    Convolution(Convolution),
    Distribution(Distribution),
    Extremes(Extremes),
    Graph(Graph),
    Virtual(VirtualImage),
}

impl Model for Object {
    ghost use Rattle.vx_base.specs.Object.{ObjectValue};
    ghost use Rattle.object_table.specs.Object.{value_of};

    ghost Value = { ObjectValue };

    ghost view = { λ o. value_of o.content };
}

impl Object {
    /// Returns an object with this content.
    pub fn new(content: Content) -> Object
        ensures { result ≡ value_of content }
    {
        Object { content }
    }

    /// Gives the blocks of the object's images back to the pool, and drops the object. Allocates
    /// nothing.
    pub fn end(self, pool: &mut Pool)
        requires { LendsAtLeast pool.old (object_blocks self) }
        ensures { LendsLess pool.old pool.new (object_blocks self) }
    {
        match self.content {
            Content::Image(image) => image.end(pool),
            Content::Delay(delay) => delay.end(pool),
            _ => {}
        }
    }

    /// Returns the content of the object.
    pub fn content(&self) -> &Content
        ensures { value_of result.now ≡ self.now }
    {
        &self.content
    }

    /// Returns the kind of the object.
    pub fn kind(&self) -> Kind
        ensures { result ≡ object_kind self.now }
    {
        match &self.content {
            Content::Image(_) => Kind::Image,
            Content::Lut(_) => Kind::Lut,
            Content::Threshold(_) => Kind::Threshold,
            Content::Delay(_) => Kind::Delay,
            Content::Convolution(_) => Kind::Convolution,
            Content::Distribution(_) => Kind::Distribution,
            Content::Extremes(_) => Kind::Extremes,
            Content::Graph(_) => Kind::Graph,
            Content::Virtual(_) => Kind::VirtualImage,
        }
    }

    /// Returns the kind of the object in a slot: `Image` for a slot of a delay, whether the slot
    /// exists or not; `None` for a slot of another object. Without a slot, returns the kind of the
    /// object itself.
    pub fn slot_kind(&self, slot: Option<u8>) -> Option<Kind>
        ensures { result ≡ slot_kind slot self.now }
    {
        match (slot, &self.content) {
            (None, _) => Some(self.kind()),
            (Some(_), Content::Delay(_)) => Some(Kind::Image),
            (Some(_), _) => None,
        }
    }

    /// Returns whether the object is a delay that has the slot. Without a slot, returns true.
    pub fn has_slot(&self, slot: Option<u8>) -> bool
        ensures { result ≡ is_some (in_slot slot self.now) }
    {
        match (slot, &self.content) {
            (None, _) => true,
            (Some(k), Content::Delay(delay)) => delay.slot(k).is_ok(),
            (Some(_), _) => false,
        }
    }

    /// Returns the number of bytes that a client is charged for the object: the bytes of the
    /// samples of the object's images.
    pub fn bytes(&self) -> usize
        ensures value { result ≡ object_bytes self.now }
        ensures limit { result ≤ GREATEST_SLOTS * GREATEST_BYTES }
    {
        match &self.content {
            Content::Image(image) => image.desc().byte_count(),
            Content::Delay(delay) => delay.bytes(),
            _ => 0,
        }
    }

    /// Returns the image in a slot of a delay; without a slot, the object itself as an image.
    /// The slot must exist. Without a slot, the object must be an image that isn't virtual.
    pub fn image(&self, slot: Option<u8>) -> &Stored
        requires { HasImage slot self.now }
        ensures { result.now ≡ image_value (object_in slot self.now) }
    {
        match (slot, &self.content) {
            (None, Content::Image(image)) => image,
            (Some(k), Content::Delay(delay)) => delay.slot(k).unwrap(),
            _ => unreachable!(),
        }
    }

    /// Copies a picture to the image that `image(slot)` returns. The picture and the image must
    /// have the same description.
    pub fn write(&mut self, slot: Option<u8>, picture: &Picture)
        requires there { HasImage slot self.old }
        requires object { IsObject self.old }
        requires same { description_of (image_value (object_in slot self.old))
            ≡ picture.now.description }
        ensures value { self.new ≡ with_slot slot (ImageObject (picture_image picture.now))
            self.old }
        ensures bytes { object_bytes self.new ≡ object_bytes self.old }
        ensures image { IsImage (picture_image picture.now) }
    {
        match (slot, &mut self.content) {
            (None, Content::Image(image)) => image.write(picture),
            (Some(k), Content::Delay(delay)) => delay.write(k, picture),
            _ => unreachable!(),
        }
    }

    /// Sets the valid rectangle of the image that `image(slot)` returns, and sets each sample
    /// outside the rectangle to 0.
    pub fn set_valid(&mut self, slot: Option<u8>, valid: Rect)
        requires there { HasImage slot self.old }
        requires object { IsObject self.old }
        requires inside { IsWithin valid (image_value (object_in slot self.old)).width
            (image_value (object_in slot self.old)).height }
        ensures value { self.new ≡ with_slot slot
            (ImageObject (with_valid valid (image_value (object_in slot self.old)))) self.old }
        ensures bytes { object_bytes self.new ≡ object_bytes self.old }
    {
        match (slot, &mut self.content) {
            (None, Content::Image(image)) => image.set_valid(valid),
            (Some(k), Content::Delay(delay)) => delay.set_valid(k, valid),
            _ => unreachable!(),
        }
    }

    /// Takes the samples out of the image that `image(slot)` returns, and returns them with the
    /// image's size and format.
    pub fn take(&mut self, slot: Option<u8>) -> (Desc, Samples)
        requires { HasImage slot self.old }
        ensures desc { result.0 ≡ description_of (image_value (object_in slot self.old)) }
        ensures value { values result.1 ≡ (image_value (object_in slot self.old)).samples }
        ensures format { samples_format result.1 ≡ (image_value (object_in slot self.old)).format }
        ensures size { IsAllOrNone
            (sample_count (description_of (image_value (object_in slot self.old))))
            (length (values result.1)) }
        ensures left { self.new ≡ with_slot slot
            (with_samples (object_in slot self.old)
            (image_value (object_in slot self.old)).valid []) self.old }
        ensures bytes { object_bytes self.new ≡ object_bytes self.old }
    {
        match (slot, &mut self.content) {
            (None, Content::Image(image)) => image.take(),
            (Some(k), Content::Delay(delay)) => delay.take(k),
            _ => unreachable!(),
        }
    }

    /// Puts a sample for each pixel into the image that `image(slot)` returns, or none, and sets
    /// the image's valid rectangle.
    pub fn put(&mut self, slot: Option<u8>, samples: Samples, valid: Rect)
        requires there { HasImage slot self.old }
        requires format { samples_format samples ≡ (image_value (object_in slot self.old)).format }
        requires size { IsAllOrNone
            (sample_count (description_of (image_value (object_in slot self.old))))
            (length (values samples)) }
        ensures value { self.new ≡ with_slot slot
            (with_samples (object_in slot self.old) valid (values samples)) self.old }
        ensures bytes { object_bytes self.new ≡ object_bytes self.old }
    {
        match (slot, &mut self.content) {
            (None, Content::Image(image)) => image.put(samples, valid),
            (Some(k), Content::Delay(delay)) => delay.put(k, samples, valid),
            _ => unreachable!(),
        }
    }

    /// Ages the object if it is a delay. Allocates nothing.
    pub fn age(&mut self)
        ensures value { self.new ≡ aged_object self.old }
        ensures bytes { object_bytes self.new ≡ object_bytes self.old }
    {
        match &mut self.content {
            Content::Delay(delay) => delay.age(),
            _ => {}
        }
    }

    /// Replaces the counts of a distribution. `counts` must have one count for each bin. Allocates
    /// nothing.
    pub fn set_counts(&mut self, counts: &[u32])
        requires kind { object_kind self.old ≡ kind.Distribution }
        requires size { length counts.now ≡ (distribution_value self.old).bins.bins }
        ensures value { self.new ≡ with_counts self.old counts.now }
        ensures bytes { object_bytes self.new ≡ object_bytes self.old }
    {
        match &mut self.content {
            Content::Distribution(distribution) => distribution.set_counts(counts),
            _ => unreachable!(),
        }
    }

    /// Replaces the extremes in an object of kind `Extremes`.
    pub fn set_extremes(&mut self, extremes: Extremes)
        requires { object_kind self.old ≡ kind.Extremes }
        ensures value { self.new ≡ ExtremesObject extremes }
        ensures bytes { object_bytes self.new ≡ object_bytes self.old }
    {
        match &mut self.content {
            Content::Extremes(held) => *held = extremes,
            _ => unreachable!(),
        }
    }

    /// Returns the graph in an object of kind `Graph`.
    pub fn graph(&self) -> &Graph
        requires { object_kind self.now ≡ kind.Graph }
        ensures { result.now ≡ graph_value self.now }
    {
        match &self.content {
            Content::Graph(graph) => graph,
            _ => unreachable!(),
        }
    }

    /// Adds a node to a graph, and returns the node's number. After a fault the graph is unchanged.
    pub fn add_node(&mut self, node: NodeSpec) -> Result<u32, GraphFault>
        requires { object_kind self.old ≡ kind.Graph }
        ensures number { IfOk result (λ number. number ≡ (graph_value self.old).next) }
        ensures ok { OnOk result (self.new ≡ GraphObject (with_node (graph_value self.old) node)) }
        ensures capacity { OnOk result (IsTrue (can_add (graph_value self.old))) }
        ensures fault { IfErr result (λ fault. fault
            ≡ (if can_add (graph_value self.old) then NoMemory else NoResources)) }
        ensures err { OnErr result (self.new ≡ self.old) }
        ensures bytes { object_bytes self.new ≡ object_bytes self.old }
    {
        match &mut self.content {
            Content::Graph(graph) => graph.add_node(node),
            _ => unreachable!(),
        }
    }

    /// Removes the node with this number from a graph, and returns the node. `InvalidReference`:
    /// there is no such node.
    pub fn remove_node(&mut self, number: u32) -> Result<NodeSpec, GraphFault>
        requires { object_kind self.old ≡ kind.Graph }
        ensures graph { IsGraph (graph_value self.old) }
        ensures removed { IfOk result (λ node.
            find (λ n. n.number == number) (graph_value self.old).nodes
            ≡ Some (record { number = number; node = node })) }
        ensures ok { OnOk result (self.new
            ≡ GraphObject (without_node (graph_value self.old) number)) }
        ensures missing { is_err result ≡ not (has_node (graph_value self.old) number) }
        ensures fault { IfErr result (λ fault. fault ≡ InvalidReference) }
        ensures err { OnErr result (self.new ≡ self.old) }
        ensures bytes { object_bytes self.new ≡ object_bytes self.old }
    {
        match &mut self.content {
            Content::Graph(graph) => graph.remove_node(number),
            _ => unreachable!(),
        }
    }

    /// Replaces a graph's list of delays registered for auto-aging. No name may occur twice in
    /// `delays`.
    pub fn set_delays(&mut self, delays: Vec<u32>)
        requires kind { object_kind self.old ≡ kind.Graph }
        requires distinct { AllPairs (λ a b. a ≢ b) delays.items }
        ensures value { self.new ≡ GraphObject (with_delays (graph_value self.old) delays.items) }
        ensures bytes { object_bytes self.new ≡ object_bytes self.old }
    {
        match &mut self.content {
            Content::Graph(graph) => graph.set_delays(delays),
            _ => unreachable!(),
        }
    }
}
