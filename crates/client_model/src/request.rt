//! Requests of clients.
ghost use Rattle.client_model.specs.Request.{IsRequest};

use crate::text::Text;
use vx_base::{
    Bins, Convolution, Desc, Lut, NodeSpec, ObjRef, PartialDesc, Picture, Rect, SlotCount,
    ThresholdRule, prove_bytes,
};

/// A client's request.
#[derive(Debug, Drop)]
pub enum Request {
    /// Opens the client's context.
    OpenContext,
    /// Releases the client's context with all of its objects.
    ReleaseContext,
    /// Creates an image of zeros; the whole image is valid.
    CreateImage(Desc),
    /// Asks for the size, the format and the valid rectangle of an image.
    QueryImage(ObjRef),
    /// Writes all samples of an image; the whole image is then valid.
    WriteImage(ObjRef, Picture),
    /// Writes the picture that a PGM text encodes. The request carries the text unparsed.
    WriteImagePgm(ObjRef, Text),
    /// Asks for all samples of an image.
    ReadImage(ObjRef),
    /// Asks for all samples of a U8 image, as a PGM text.
    ReadImagePgm(ObjRef),
    /// Sets the valid rectangle of an image. The samples outside the rectangle become 0.
    SetValid(ObjRef, Rect),
    /// Releases the name of an object. The object is dropped once no node uses it.
    Release(u32),
    /// Creates a lookup table.
    CreateLut(Lut),
    /// Creates a threshold.
    CreateThreshold(ThresholdRule),
    /// Creates a convolution matrix.
    CreateConvolution(Convolution),
    /// Creates a distribution with these bins and all counts 0.
    CreateDistribution(Bins),
    /// Asks for the counts of the distribution with this name.
    ReadDistribution(u32),
    /// Creates extremes. All their numbers are 0 until a node writes them.
    CreateMinMax,
    /// Asks for the extremes with this name.
    ReadMinMax(u32),
    /// Creates a graph without nodes.
    CreateGraph,
    /// Creates a virtual image in the graph with this name. The image's width, height and format
    /// may be open.
    CreateVirtualImage(u32, PartialDesc),
    /// Adds a node to the graph with this name.
    AddNode(u32, NodeSpec),
    /// Removes a node from a graph. The first field is the graph's name, and the second is the
    /// node's number.
    RemoveNode(u32, u32),
    /// Asks for the verdict on the graph with this name.
    VerifyGraph(u32),
    /// Runs the graph with this name, and then ages its registered delays. Does neither if the
    /// graph's verdict isn't SUCCESS.
    ProcessGraph(u32),
    /// Runs one node by itself (immediate mode).
    Immediate(NodeSpec),
    /// Creates a delay with this number of slots. The slots hold new images, with the size and
    /// format of the referenced image.
    CreateDelay(ObjRef, SlotCount),
    /// Ages the delay with this name: each image moves to the next slot, and the image in the last
    /// slot to slot 0.
    AgeDelay(u32),
    /// Registers a delay with a graph. The delay then ages after each run of the graph. The first
    /// field is the graph's name, and the second is the delay's name.
    RegisterAutoAging(u32, u32),
}

impl Request {
    /// Proves that the request's fields are in the ranges of their types. The prover learns a
    /// field's range only where the field is read. At run time this function does nothing.
    pub fn prove_request(&self)
        ensures { IsRequest self.now }
    {
        match self {
            Request::OpenContext
            | Request::ReleaseContext
            | Request::CreateMinMax
            | Request::CreateGraph => {}
            Request::CreateImage(desc) => desc.prove_sides(),
            Request::WriteImage(image, picture) => {
                image.prove_reference();
                let _samples = picture.samples();
            }
            Request::WriteImagePgm(image, text) => {
                image.prove_reference();
                prove_bytes(text.bytes());
            }
            Request::QueryImage(image) | Request::ReadImage(image) | Request::ReadImagePgm(image) =>
                { image.prove_reference() }
            Request::SetValid(image, valid) => {
                image.prove_reference();
                valid.prove_bounds();
            }
            Request::Release(name) | Request::ReadDistribution(name) | Request::ReadMinMax(name) =>
                {
                    let _name = *name;
                }
            Request::CreateLut(lut) => {
                let _entries = lut.entries();
            }
            Request::CreateThreshold(threshold) => {
                let _format = threshold.format();
            }
            Request::CreateConvolution(convolution) => convolution.prove_convolution(),
            Request::CreateDistribution(bins) => {
                let _numbers = (bins.bins(), bins.offset(), bins.range());
            }
            Request::CreateVirtualImage(graph, declared) => {
                let _graph = *graph;
                declared.prove_sides();
            }
            Request::AddNode(graph, node) => {
                let _graph = *graph;
                let _fields = node.node();
            }
            Request::RemoveNode(graph, number) => {
                let _names = (*graph, *number);
            }
            Request::VerifyGraph(graph) | Request::ProcessGraph(graph) => {
                let _graph = *graph;
            }
            Request::Immediate(node) => {
                let _fields = node.node();
            }
            Request::CreateDelay(exemplar, slots) => {
                exemplar.prove_reference();
                let _count = slots.get();
            }
            Request::AgeDelay(name) => {
                let _name = *name;
            }
            Request::RegisterAutoAging(graph, delay) => {
                let _names = (*graph, *delay);
            }
        }
    }
}
