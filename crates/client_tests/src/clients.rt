//! Clients with a small quota, and their graphs.
use client_contexts::Runtime;
use client_model::{Limits, Reply, Request};
use std::alloc::Global;
use std::test::Fail;
use vx_base::{
    Border, Code, Desc, Format, Function, Node, NodeSpec, ObjRef, PartialDesc, Picture, Policy,
    Samples,
};

/// Opens a context, and creates images of this description until one is refused. Returns how many
/// images were created, or `None` if a reply was unexpected or none of nine images was refused.
fn images_made(alloc: Global, runtime: &mut Runtime, client: u16, desc: Desc) -> Option<u32> {
    let opened = runtime.apply(alloc, client, &Request::OpenContext).ok()?;
    if !matches!(opened, Reply::Empty) {
        return None;
    }
    for made in 0..9 {
        match runtime
            .apply(alloc, client, &Request::CreateImage(desc))
            .ok()?
        {
            Reply::Name(name) if name == made + 1 => {}
            Reply::Refused(Code::NoResources) => return Some(made),
            _ => return None,
        }
    }
    None
}

#[test]
fn each_has_its_quota(rt: HostRuntime) -> Result<(), Fail> {
    let limits = Limits::new(8, 1).ok_or("within the limits")?;
    let mut runtime = Runtime::new(rt.alloc(), limits);
    for (client, format, count) in [(1, Format::U8, 2), (2, Format::U8, 2), (3, Format::S16, 1)] {
        let desc = Desc::new(2, 2, format).ok_or("within the limits")?;
        let made = images_made(rt.alloc(), &mut runtime, client, desc);
        assert!(rt; made == Some(count), "client {client}");
    }
    Ok(())
}

/// Returns the reply to a request of client 1.
pub fn reply(alloc: Global, runtime: &mut Runtime, request: &Request) -> Result<Reply, Fail> {
    Ok(runtime.apply(alloc, 1, request).ok().ok_or("no memory")?)
}

/// Returns the name that a request of client 1 creates.
pub fn create(alloc: Global, runtime: &mut Runtime, request: &Request) -> Result<u32, Fail> {
    match reply(alloc, runtime, request)? {
        Reply::Name(name) => Ok(name),
        _ => Err("no name".into()),
    }
}

/// Applies a request of client 1, which must succeed with an empty reply.
pub fn succeed(alloc: Global, runtime: &mut Runtime, request: &Request) -> Result<(), Fail> {
    match reply(alloc, runtime, request)? {
        Reply::Empty => Ok(()),
        _ => Err("it tells more, or is refused".into()),
    }
}

/// Returns whether a request of client 1 is refused with this code.
fn is_refused(
    alloc: Global,
    runtime: &mut Runtime,
    request: &Request,
    code: Code,
) -> Result<bool, Fail> {
    Ok(match reply(alloc, runtime, request)? {
        Reply::Refused(refused) => refused == code,
        _ => false,
    })
}

/// Fills client 1's quota with two images. Returns whether a third one fits after the first was
/// released, and two fit into a new context.
fn leaves_room(alloc: Global, runtime: &mut Runtime, desc: Desc) -> Result<bool, Fail> {
    let is_full = images_made(alloc, runtime, 1, desc) == Some(2);
    succeed(alloc, runtime, &Request::Release(1))?;
    let fits = create(alloc, runtime, &Request::CreateImage(desc))? == 3;
    succeed(alloc, runtime, &Request::ReleaseContext)?;
    Ok(is_full && fits && images_made(alloc, runtime, 1, desc) == Some(2))
}

#[test]
fn what_is_released_leaves_room(rt: HostRuntime) -> Result<(), Fail> {
    let limits = Limits::new(8, 1).ok_or("within the limits")?;
    let desc = Desc::new(2, 2, Format::U8).ok_or("within the limits")?;
    let mut runtime = Runtime::new(rt.alloc(), limits);
    assert!(rt; leaves_room(rt.alloc(), &mut runtime, desc)?);
    Ok(())
}

/// Returns a runtime in which client 1 has a context.
pub fn opened(alloc: Global, limits: Limits) -> Result<Runtime, Fail> {
    let mut runtime = Runtime::new(alloc, limits);
    succeed(alloc, &mut runtime, &Request::OpenContext)?;
    Ok(runtime)
}

/// Creates images 1 and 2 of one sample each, graph 3, and virtual image 4 of that graph.
fn create_a_graph(alloc: Global, runtime: &mut Runtime) -> Result<(), Fail> {
    let desc = Desc::new(1, 1, Format::U8).ok_or("within the limits")?;
    let open = PartialDesc::new(None, None, None).ok_or("nothing is declared")?;
    let requests = [
        Request::CreateImage(desc),
        Request::CreateImage(desc),
        Request::CreateGraph,
        Request::CreateVirtualImage(3, open),
    ];
    for request in &requests {
        create(alloc, runtime, request)?;
    }
    Ok(())
}

/// Returns a runtime in which client 1 has images 1 and 2 of one sample each, graph 3, and virtual
/// image 4 of that graph.
pub fn with_a_graph(alloc: Global, limits: Limits) -> Result<Runtime, Fail> {
    let mut runtime = opened(alloc, limits)?;
    create_a_graph(alloc, &mut runtime)?;
    Ok(runtime)
}

/// Returns the request that adds a node to graph 3, from one image to another.
fn adding(function: Function, input: u32, output: u32) -> Result<Request, Fail> {
    let node = NodeSpec::new(Node {
        function,
        border: Border::Replicate,
        policy: Policy::Wrap,
        amount: 0,
        in1: ObjRef::new(input, None),
        in2: None,
        out1: Some(ObjRef::new(output, None)),
        out2: None,
    })
    .ok_or("a node")?;
    Ok(Request::AddNode(3, node))
}

/// Adds a node to graph 3, from one image to another, and returns the node's number.
pub fn add(
    alloc: Global,
    runtime: &mut Runtime,
    function: Function,
    input: u32,
    output: u32,
) -> Result<u32, Fail> {
    match reply(alloc, runtime, &adding(function, input, output)?)? {
        Reply::Node(number) => Ok(number),
        _ => Err("no node".into()),
    }
}

/// Adds a Not node to graph 3, from one image to another, and returns the node's number.
pub fn add_not(alloc: Global, runtime: &mut Runtime, input: u32, output: u32) -> Result<u32, Fail> {
    add(alloc, runtime, Function::NotBits, input, output)
}

/// Writes a sample to image 1.
pub fn write_sample(alloc: Global, runtime: &mut Runtime, sample: u8) -> Result<(), Fail> {
    let desc = Desc::new(1, 1, Format::U8).ok_or("within the limits")?;
    let samples = Vec::from_slice(alloc, &[sample]).ok().ok_or("no memory")?;
    let picture = Picture::new(desc, Samples::U8(samples));
    succeed(
        alloc,
        runtime,
        &Request::WriteImage(ObjRef::new(1, None), picture),
    )
}

/// Returns whether image 2 has this sample.
pub fn holds(alloc: Global, runtime: &mut Runtime, sample: u8) -> Result<bool, Fail> {
    Ok(
        match reply(alloc, runtime, &Request::ReadImage(ObjRef::new(2, None)))? {
            Reply::Picture(picture) => match picture.samples() {
                Samples::U8(samples) => samples.as_slice() == [sample].as_slice(),
                _ => false,
            },
            _ => false,
        },
    )
}

/// Adds two nodes to graph 3, the one that runs second first. Returns whether the graph is refused
/// without the other node.
fn add_two(alloc: Global, runtime: &mut Runtime) -> Result<bool, Fail> {
    let verify = Request::VerifyGraph(3);
    let is_first = add_not(alloc, runtime, 4, 2)? == 1;
    let is_refused = is_refused(alloc, runtime, &verify, Code::InvalidLink)?;
    Ok(is_first && is_refused && add_not(alloc, runtime, 1, 4)? == 2)
}

/// Returns whether graph 3 copies image 1 to image 2 when it runs, and not before.
fn copies(alloc: Global, runtime: &mut Runtime) -> Result<bool, Fail> {
    write_sample(alloc, runtime, 10)?;
    succeed(alloc, runtime, &Request::VerifyGraph(3))?;
    let is_empty = holds(alloc, runtime, 0)?;
    succeed(alloc, runtime, &Request::ProcessGraph(3))?;
    Ok(is_empty && holds(alloc, runtime, 10)?)
}

#[test]
fn a_graph_runs(rt: HostRuntime) -> Result<(), Fail> {
    let limits = Limits::new(8, 1).ok_or("within the limits")?;
    let mut runtime = with_a_graph(rt.alloc(), limits)?;
    assert!(rt; add_two(rt.alloc(), &mut runtime)?);
    assert!(rt; copies(rt.alloc(), &mut runtime)?);
    Ok(())
}

/// Returns whether image 1, which was released, can be used by no new node and is still charged.
fn is_charged(alloc: Global, runtime: &mut Runtime, making: &Request) -> Result<bool, Fail> {
    let adding = adding(Function::NotBits, 1, 4)?;
    Ok(
        is_refused(alloc, runtime, &adding, Code::InvalidReference)?
            && is_refused(alloc, runtime, making, Code::NoResources)?,
    )
}

/// Releases image 1, which a node of graph 3 uses. Returns whether the image is held: it is
/// charged, and the graph runs on it.
fn is_held(alloc: Global, runtime: &mut Runtime, making: &Request) -> Result<bool, Fail> {
    succeed(alloc, runtime, &Request::Release(1))?;
    let is_charged = is_charged(alloc, runtime, making)?;
    succeed(alloc, runtime, &Request::ProcessGraph(3))?;
    Ok(is_charged && holds(alloc, runtime, 255)?)
}

/// Returns whether image 1 is held while a node uses it, and no longer.
fn is_held_by_a_node(alloc: Global, runtime: &mut Runtime) -> Result<bool, Fail> {
    let desc = Desc::new(1, 1, Format::U8).ok_or("within the limits")?;
    let making = Request::CreateImage(desc);
    let is_held = add_not(alloc, runtime, 1, 2)? == 1 && is_held(alloc, runtime, &making)?;
    succeed(alloc, runtime, &Request::RemoveNode(3, 1))?;
    Ok(is_held && create(alloc, runtime, &making)? == 5)
}

#[test]
fn what_a_node_uses_is_held(rt: HostRuntime) -> Result<(), Fail> {
    let limits = Limits::new(2, 1).ok_or("within the limits")?;
    let mut runtime = with_a_graph(rt.alloc(), limits)?;
    assert!(rt; is_held_by_a_node(rt.alloc(), &mut runtime)?);
    Ok(())
}
