//! The names of a table, the bytes that it charges, the slots of a delay, and objects whose values
//! are set.
ghost use Rattle.std.specs.Prelude.{◌≡◌, [], IfOk, OnOk};
ghost use Rattle.object_table.specs.Context.{with_new};
ghost use Rattle.object_table.specs.Object.{value_of};
ghost use Rattle.object_table.specs.Uses.{nodes_in};

use crate::holdings::Holdings;
use object_table::{Content, Delay, Distribution, Object, Stored, Table, TableFault};
use pixel_pool::Pool;
use std::test::Fail;
use vx_base::{Bins, Convolution, Desc, Extremes, Format, Kind, SlotCount};

/// Returns the description of 2 by 2 U8 samples.
fn small() -> Result<Desc, Fail> {
    Ok(Desc::new(2, 2, Format::U8).ok_or("within the limits")?)
}

#[test]
fn names_follow_each_other(rt: HostRuntime) -> Result<(), Fail> {
    let desc = small()?;
    let mut holdings = Holdings::new(rt.alloc());
    for name in 1..5 {
        assert!(rt; holdings.insert(desc)? == name);
    }
    assert!(rt; holdings.release(4) == Ok(()));
    assert!(rt; holdings.release(4) == Err(TableFault::InvalidReference));
    assert!(rt; holdings.insert(desc)? == 5);
    let table = &holdings.table;
    assert!(rt; table.held() == 4);
    assert!(rt; table.charged_bytes() == 16);
    assert!(rt; table.get_held(5).is_some());
    assert!(rt; table.get_held(4).is_none());
    let found = table.get(3).map(|object| object.kind());
    assert!(rt; found == Ok(Kind::Image));
    let lost = table.get(4).map(|object| object.kind());
    assert!(rt; lost == Err(TableFault::InvalidReference));
    Ok(())
}

#[test]
fn at_most_1024_are_held(rt: HostRuntime) -> Result<(), Fail> {
    let desc = small()?;
    let mut holdings = Holdings::new(rt.alloc());
    for _ in 0..1024 {
        holdings.insert(desc)?;
    }
    assert!(rt; !holdings.table.can_insert());
    let refused = holdings.offer(desc)?.err().ok_or("one too many")?;
    assert!(rt; refused.fault == TableFault::NoResources);
    assert!(rt; refused.object.bytes() == 4);
    assert!(rt; holdings.release(1) == Ok(()));
    assert!(rt; holdings.insert(desc)? == 1025);
    Ok(())
}

#[test]
fn a_delay_has_its_slots(rt: HostRuntime) -> Result<(), Fail> {
    let desc = Desc::new(3, 2, Format::S16).ok_or("within the limits")?;
    let slots = SlotCount::new(3).ok_or("within the limits")?;
    assert!(rt; SlotCount::new(17).is_none());
    let mut pool = Pool::new(rt.alloc());
    let mut delay = Delay::new(rt.alloc(), &mut pool, desc, slots)?;
    assert!(rt; pool.lent(Format::S16) == 3);
    delay.age();
    for k in 0..3 {
        let found = delay.slot(k).map(|image| image.desc());
        assert!(rt; found == Ok(desc));
    }
    let lost = delay.slot(3).map(|image| image.desc());
    assert!(rt; lost == Err(TableFault::InvalidValue));
    let object = Object::new(Content::Delay(delay));
    assert!(rt; object.kind() == Kind::Delay);
    assert!(rt; object.bytes() == 36);
    Ok(())
}

/// Inserts an object, and returns the object's name. If the object is a graph, it must have no
/// nodes.
pub fn hold(table: &mut Table, content: Content) -> Result<u32, Fail>
    requires { nodes_in (value_of content) ≡ [] }
    ensures { OnOk result (table.new ≡ with_new table.old (value_of content)) }
{
    let object = Object::new(content);
    Ok(table.insert(object).ok().ok_or("no memory")?)
}

/// Returns the kind of the object of this name, and the bytes that are charged for it.
fn kind_of(table: &Table, name: u32) -> Option<(Kind, usize)> {
    let object = table.get(name).ok()?;
    Some((object.kind(), object.bytes()))
}

#[test]
fn a_convolution_is_held(rt: HostRuntime) -> Result<(), Fail> {
    let coefficients = [1, -2, 3, -4, 5, -6, 7, -8, 9, -32768, 32767, 0, 0, 0, 1];
    let convolution = Convolution::new(3, 5, 31, &coefficients).ok_or("allowed")?;
    let mut table = Table::new(rt.alloc());
    let name = hold(&mut table, Content::Convolution(convolution))?;
    assert!(rt; kind_of(&table, name) == Some((Kind::Convolution, 0)));
    let Ok(object) = table.get(name) else {
        return Err("its name is live".into());
    };
    let Content::Convolution(held) = object.content() else {
        return Err("a convolution".into());
    };
    assert!(rt; (held.columns(), held.rows(), held.exponent()) == (3, 5, 31));
    assert!(rt; held.coefficients() == &coefficients[..]);
    Ok(())
}

/// Returns the counts of the distribution of this name.
fn counts_of(table: &Table, name: u32) -> Option<&[u32]> {
    match table.get(name).ok()?.content() {
        Content::Distribution(distribution) => Some(distribution.counts()),
        _ => None,
    }
}

/// Sets the counts of the distribution of this name, if it exists and has one bin for each of
/// `counts`. Returns whether the counts were set.
fn set_counts(table: &mut Table, name: u32, counts: &[u32]) -> bool {
    match table.get_held(name).map(|object| object.content()) {
        Some(Content::Distribution(held)) if held.counts().len() == counts.len() => {}
        _ => return false,
    }
    table.set_counts(name, counts);
    true
}

#[test]
fn a_distribution_has_the_last_counts(rt: HostRuntime) -> Result<(), Fail> {
    let alloc = rt.alloc();
    let bins = Bins::new(4, 10, 100).ok_or("within the limits")?;
    let mut table = Table::new(alloc);
    let image = Stored::new(&mut Pool::new(alloc), small()?)?;
    hold(&mut table, Content::Image(image))?;
    let name = hold(
        &mut table,
        Content::Distribution(Distribution::new(alloc, bins)?),
    )?;
    assert!(rt; kind_of(&table, name) == Some((Kind::Distribution, 0)));
    assert!(rt; counts_of(&table, name) == Some(&[0, 0, 0, 0]));
    for counts in [[1, 2, 3, 4], [4294967295, 0, 0, 7], [0, 1, 0, 0]] {
        assert!(rt; set_counts(&mut table, name, &counts));
        assert!(rt; counts_of(&table, name) == Some(&counts));
    }
    assert!(rt; !set_counts(&mut table, name, &[1, 2, 3]));
    assert!(rt; !set_counts(&mut table, 1, &[1, 2, 3, 4]));
    assert!(rt; table.charged_bytes() == 4);
    Ok(())
}

/// Returns the value of the object of this name, if the object's kind is Extremes.
fn extremes_of(table: &Table, name: u32) -> Option<Extremes> {
    match table.get(name).ok()?.content() {
        Content::Extremes(extremes) => Some(*extremes),
        _ => None,
    }
}

/// Sets the value of the object of this name, if the object's kind is Extremes. Returns whether the
/// value was set.
fn set_extremes(table: &mut Table, name: u32, extremes: Extremes) -> bool {
    match table.get_held(name) {
        Some(object) if object.kind() == Kind::Extremes => {}
        _ => return false,
    }
    table.set_extremes(name, extremes);
    true
}

#[test]
fn extremes_are_the_last(rt: HostRuntime) -> Result<(), Fail> {
    let alloc = rt.alloc();
    let nowhere = Extremes {
        min: 0,
        max: 0,
        min_count: 0,
        max_count: 0,
        min_at: (0, 0),
        max_at: (0, 0),
    };
    let found = Extremes {
        min: -32768,
        max: 7,
        min_count: 1,
        max_count: 67108863,
        min_at: (8191, 0),
        max_at: (1, 8190),
    };
    let mut table = Table::new(alloc);
    let image = Stored::new(&mut Pool::new(alloc), small()?)?;
    hold(&mut table, Content::Image(image))?;
    let name = hold(&mut table, Content::Extremes(nowhere))?;
    assert!(rt; kind_of(&table, name) == Some((Kind::Extremes, 0)));
    assert!(rt; extremes_of(&table, name) == Some(nowhere));
    for extremes in [found, nowhere] {
        assert!(rt; set_extremes(&mut table, name, extremes));
        assert!(rt; extremes_of(&table, name) == Some(extremes));
    }
    assert!(rt; !set_extremes(&mut table, 1, found));
    assert!(rt; kind_of(&table, 1) == Some((Kind::Image, 4)));
    Ok(())
}
