//! Blocks of the pool that hold clients' images. Blocks are reused and given back, and a new image
//! in a reused block never shows the old samples.
use crate::clients::{
    add, add_not, create, holds, opened, reply, succeed, with_a_graph, write_sample,
};
use client_contexts::Runtime;
use client_model::{Limits, Reply, Request};
use std::alloc::Global;
use std::test::Fail;
use vx_base::{Desc, Format, Function, ObjRef, PartialDesc, Picture, Samples, SlotCount};

/// Returns whether the pool has these numbers of lent blocks and of all blocks, for U8, S16 and
/// U32.
fn has(runtime: &Runtime, lent: [usize; 3], blocks: [usize; 3]) -> bool {
    let [bytes, shorts, words] = [Format::U8, Format::S16, Format::U32];
    lent == [
        runtime.lent(bytes),
        runtime.lent(shorts),
        runtime.lent(words),
    ] && blocks
        == [
            runtime.blocks(bytes),
            runtime.blocks(shorts),
            runtime.blocks(words),
        ]
}

/// Returns samples of a format, none of which is 0.
fn no_zeros(alloc: Global, format: Format, count: usize) -> Result<Samples, Fail> {
    Ok(match format {
        Format::U8 => Samples::U8(vec![in alloc; 255; count]?),
        Format::S16 => Samples::S16(vec![in alloc; -1; count]?),
        Format::U32 => Samples::U32(vec![in alloc; 4_294_967_295; count]?),
    })
}

/// Writes samples that aren't 0 to the whole image that a reference names.
fn fill(alloc: Global, runtime: &mut Runtime, cell: ObjRef, desc: Desc) -> Result<(), Fail> {
    let samples = no_zeros(alloc, desc.format(), desc.sample_count())?;
    if samples.len() != desc.sample_count() || samples.format() != desc.format() {
        return Err("so many of the format".into());
    }
    let picture = Picture::new(desc, samples);
    succeed(alloc, runtime, &Request::WriteImage(cell, picture))
}

/// Returns whether the image that a reference names is 0 everywhere.
fn is_cleared(alloc: Global, runtime: &mut Runtime, cell: ObjRef) -> Result<bool, Fail> {
    match reply(alloc, runtime, &Request::ReadImage(cell))? {
        Reply::Picture(picture) => Ok(match picture.samples() {
            Samples::U8(samples) => samples.iter().all(|sample| *sample == 0),
            Samples::S16(samples) => samples.iter().all(|sample| *sample == 0),
            Samples::U32(samples) => samples.iter().all(|sample| *sample == 0),
        }),
        _ => Err("no picture".into()),
    }
}

/// Writes samples that aren't 0 to the whole image that a reference names. Returns whether the
/// image was 0 everywhere before, and isn't afterwards.
fn was_cleared(
    alloc: Global,
    runtime: &mut Runtime,
    cell: ObjRef,
    desc: Desc,
) -> Result<bool, Fail> {
    let was_cleared = is_cleared(alloc, runtime, cell)?;
    fill(alloc, runtime, cell, desc)?;
    Ok(was_cleared && !is_cleared(alloc, runtime, cell)?)
}

/// Each format, and the numbers of U8, S16 and U32 blocks of one image of that format.
const FORMATS: [(Format, [usize; 3]); 3] = [
    (Format::U8, [1, 0, 0]),
    (Format::S16, [0, 1, 0]),
    (Format::U32, [0, 0, 1]),
];

/// Creates and releases an image. Returns whether the image was all 0 when it was new, and used
/// these blocks.
fn image_uses(
    alloc: Global,
    runtime: &mut Runtime,
    desc: Desc,
    blocks: [usize; 3],
) -> Result<bool, Fail> {
    let name = create(alloc, runtime, &Request::CreateImage(desc))?;
    let was_cleared = was_cleared(alloc, runtime, ObjRef::new(name, None), desc)?;
    let is_lent = has(runtime, blocks, blocks);
    succeed(alloc, runtime, &Request::Release(name))?;
    Ok(was_cleared && is_lent && has(runtime, [0; 3], blocks))
}

#[test]
fn a_new_image_is_cleared_and_uses_the_block_of_a_released_one(
    rt: HostRuntime,
) -> Result<(), Fail> {
    for (format, one) in FORMATS {
        let desc = Desc::new(5, 7, format).ok_or("within the limits")?;
        let mut runtime = opened(rt.alloc(), Limits::default())?;
        for _ in 0..3 {
            assert!(rt;
                image_uses(rt.alloc(), &mut runtime, desc, one)?,
                "{format:?}"
            );
        }
    }
    Ok(())
}

/// Creates a delay of three images like image 1, which has this description. Then fills, ages and
/// releases the delay. Returns whether all slots were 0 at first, and three blocks were lent to the
/// delay until its release.
fn slots_are_cleared(
    alloc: Global,
    runtime: &mut Runtime,
    slots: SlotCount,
    desc: Desc,
) -> Result<bool, Fail> {
    let exemplar = ObjRef::new(1, None);
    let name = create(alloc, runtime, &Request::CreateDelay(exemplar, slots))?;
    let mut is_so = true;
    for slot in 0..3 {
        is_so &= was_cleared(alloc, runtime, ObjRef::new(name, Some(slot)), desc)?;
    }
    succeed(alloc, runtime, &Request::AgeDelay(name))?;
    is_so &= has(runtime, [0, 4, 0], [0, 4, 0]);
    succeed(alloc, runtime, &Request::Release(name))?;
    Ok(is_so && has(runtime, [0, 1, 0], [0, 4, 0]))
}

/// Creates an image, and a delay like it three times. Returns whether the delays are cleared, and
/// use the same blocks.
fn delays_are_cleared(alloc: Global, runtime: &mut Runtime) -> Result<bool, Fail> {
    let desc = Desc::new(5, 7, Format::S16).ok_or("within the limits")?;
    let slots = SlotCount::new(3).ok_or("within the limits")?;
    create(alloc, runtime, &Request::CreateImage(desc))?;
    let mut are_cleared = true;
    for _ in 0..3 {
        are_cleared &= slots_are_cleared(alloc, runtime, slots, desc)?;
    }
    Ok(are_cleared)
}

#[test]
fn a_new_delay_is_cleared_and_uses_the_blocks_of_a_released_one(
    rt: HostRuntime,
) -> Result<(), Fail> {
    let mut runtime = opened(rt.alloc(), Limits::default())?;
    assert!(rt; delays_are_cleared(rt.alloc(), &mut runtime)?);
    Ok(())
}

/// Creates an image of four samples, and a delay whose slots have images of the same size and
/// format.
fn create_many(
    alloc: Global,
    runtime: &mut Runtime,
    format: Format,
    slots: SlotCount,
) -> Result<(), Fail> {
    let desc = Desc::new(2, 2, format).ok_or("within the limits")?;
    let name = create(alloc, runtime, &Request::CreateImage(desc))?;
    let exemplar = ObjRef::new(name, None);
    create(alloc, runtime, &Request::CreateDelay(exemplar, slots))?;
    Ok(())
}

/// Creates images and delays of each format, and releases the context. Returns whether all blocks
/// were lent until then.
fn gives_all_back(alloc: Global, runtime: &mut Runtime) -> Result<bool, Fail> {
    let slots = SlotCount::new(16).ok_or("within the limits")?;
    for (format, _) in FORMATS {
        create_many(alloc, runtime, format, slots)?;
    }
    create(alloc, runtime, &Request::CreateMinMax)?;
    let is_lent = has(runtime, [17; 3], [17; 3]);
    succeed(alloc, runtime, &Request::ReleaseContext)?;
    Ok(is_lent && has(runtime, [0; 3], [17; 3]))
}

#[test]
fn a_released_context_has_given_all_blocks_back(rt: HostRuntime) -> Result<(), Fail> {
    let mut runtime = opened(rt.alloc(), Limits::default())?;
    assert!(rt; gives_all_back(rt.alloc(), &mut runtime)?);
    Ok(())
}

/// Adds a chain of six Box nodes to graph 3, from image 1 to image 2 through five virtual images.
fn add_chain(alloc: Global, runtime: &mut Runtime) -> Result<(), Fail> {
    let open = PartialDesc::new(None, None, None).ok_or("nothing is declared")?;
    for _ in 5..9 {
        create(alloc, runtime, &Request::CreateVirtualImage(3, open))?;
    }
    for (input, output) in [(1, 4), (4, 5), (5, 6), (6, 7), (7, 8), (8, 2)] {
        add(alloc, runtime, Function::Box, input, output)?;
    }
    Ok(())
}

/// Writes a sample to image 1, and runs graph 3. Returns whether image 2 has the sample, and the
/// pool two blocks more than are lent.
fn runs_through_two_blocks(alloc: Global, runtime: &mut Runtime, sample: u8) -> Result<bool, Fail> {
    write_sample(alloc, runtime, sample)?;
    succeed(alloc, runtime, &Request::ProcessGraph(3))?;
    Ok(holds(alloc, runtime, sample)? && has(runtime, [2, 0, 0], [4, 0, 0]))
}

#[test]
fn a_chain_runs_through_two_blocks_and_gives_them_back(rt: HostRuntime) -> Result<(), Fail> {
    let mut runtime = with_a_chain(rt.alloc())?;
    assert!(rt; has(&runtime, [2, 0, 0], [2, 0, 0]));
    for sample in [10, 20] {
        assert!(rt; runs_through_two_blocks(rt.alloc(), &mut runtime, sample)?);
    }
    Ok(())
}

/// Returns a runtime with a chain of six Box nodes.
fn with_a_chain(alloc: Global) -> Result<Runtime, Fail> {
    let mut runtime = with_a_graph(alloc, Limits::default())?;
    add_chain(alloc, &mut runtime)?;
    Ok(runtime)
}

/// Returns the number of U8 slots in client 1's cached plan of graph 3, or `None` without a plan.
fn kept_slots(runtime: &Runtime) -> Option<usize> {
    match runtime.kept(1, 3) {
        Some(kept) => Some(kept.plan.slot_count(Format::U8)),
        None => None,
    }
}

/// Returns whether graph 3 is kept with its plan from the request that verifies it to the one that
/// removes a node.
fn is_kept(alloc: Global, runtime: &mut Runtime) -> Result<bool, Fail> {
    let calls = [
        (Request::VerifyGraph(3), Some(2)),
        (Request::ProcessGraph(3), Some(2)),
        (Request::RemoveNode(3, 6), None),
    ];
    let mut is_kept = kept_slots(runtime) == None;
    for (request, slots) in &calls {
        succeed(alloc, runtime, request)?;
        is_kept &= kept_slots(runtime) == *slots;
    }
    Ok(is_kept)
}

#[test]
fn a_verified_graph_is_kept_with_its_plan_until_its_nodes_change(
    rt: HostRuntime,
) -> Result<(), Fail> {
    let mut runtime = with_a_chain(rt.alloc())?;
    assert!(rt; is_kept(rt.alloc(), &mut runtime)?);
    Ok(())
}

#[test]
fn images_that_get_smaller_use_one_block(rt: HostRuntime) -> Result<(), Fail> {
    let mut runtime = opened(rt.alloc(), Limits::default())?;
    for less in 0..64 {
        let desc = Desc::new(64 - less, 65, Format::U32).ok_or("within the limits")?;
        assert!(rt; image_uses(rt.alloc(), &mut runtime, desc, [0, 0, 1])?);
    }
    runtime.drop_free();
    assert!(rt; has(&runtime, [0; 3], [0; 3]));
    Ok(())
}

/// Returns whether this number of U8 blocks is lent after a request of client 1, whatever the
/// reply.
fn leaves(
    alloc: Global,
    runtime: &mut Runtime,
    request: &Request,
    lent: usize,
) -> Result<bool, Fail> {
    reply(alloc, runtime, request)?;
    Ok(has(runtime, [lent, 0, 0], [runtime.blocks(Format::U8), 0, 0]))
}

/// Holds and releases images 1 and 2, graph 3 and a delay. Returns whether each call leaves the
/// number of blocks lent that is next to it.
fn lends_as_told(alloc: Global, runtime: &mut Runtime, slots: SlotCount) -> Result<bool, Fail> {
    let calls = [
        (Request::VerifyGraph(3), 2),
        (Request::ProcessGraph(3), 2),
        // A node still reads image 1.
        (Request::Release(1), 2),
        (Request::ProcessGraph(3), 2),
        (Request::RemoveNode(3, 1), 1),
        (Request::CreateDelay(ObjRef::new(2, None), slots), 4),
        // Image 1 has been dropped.
        (Request::CreateDelay(ObjRef::new(1, None), slots), 4),
        (Request::AgeDelay(5), 4),
        // A node writes image 2 until graph 3 is released.
        (Request::Release(2), 4),
        (Request::Release(3), 3),
        (Request::Release(5), 0),
        (Request::Release(5), 0),
    ];
    let mut is_so = true;
    for (request, lent) in &calls {
        is_so &= leaves(alloc, runtime, request, *lent)?;
    }
    Ok(is_so)
}

#[test]
fn so_many_blocks_are_lent_after_each_call(rt: HostRuntime) -> Result<(), Fail> {
    let slots = SlotCount::new(3).ok_or("within the limits")?;
    let mut runtime = with_a_graph(rt.alloc(), Limits::default())?;
    add_not(rt.alloc(), &mut runtime, 1, 4)?;
    add_not(rt.alloc(), &mut runtime, 4, 2)?;
    assert!(rt; lends_as_told(rt.alloc(), &mut runtime, slots)?);
    // At most four blocks were ever lent at the same time.
    assert!(rt; has(&runtime, [0; 3], [4, 0, 0]));
    Ok(())
}
