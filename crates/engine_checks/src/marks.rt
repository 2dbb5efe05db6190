//! Labels and symbols.
use layer_tiles::{Text, Value};
use map_marks::{Mark, Marks};
use map_words::Name;
use std::alloc::Global;
use std::test::Fail;

pub fn name(alloc: Global, text: &[u8]) -> Result<Name, Fail> {
    Ok(Name::plain(alloc, text)?)
}

pub fn mark(alloc: Global, layer: &[u8], value: Value, text: &[u8]) -> Result<Mark, Fail> {
    Ok(Mark {
        name: name(alloc, layer)?,
        value,
        text: Text::of(alloc, text)?,
    })
}

/// Labels of three layers, one of them given twice.
pub fn labels(alloc: Global) -> Result<Marks, Fail> {
    let mut labels = Marks::new(alloc);
    labels.put(mark(alloc, b"A", 1, b"wet land")?)?;
    labels.put(mark(alloc, b"B", 12, b"of another layer")?)?;
    labels.put(mark(alloc, b"AB", 2, b"of a longer name")?)?;
    labels.put(mark(alloc, b"A", 1, b"dry land")?)?;
    labels.put(mark(alloc, b"A", 3, b"of no cell")?)?;
    Ok(labels)
}

pub fn symbols(alloc: Global) -> Result<Marks, Fail> {
    let mut symbols = Marks::new(alloc);
    symbols.put(mark(alloc, b"B", 1, b"!")?)?;
    symbols.put(mark(alloc, b"A", 2, b"~")?)?;
    Ok(symbols)
}

#[test]
fn a_mark_in_place_of_another(rt: HostRuntime) -> Result<(), Fail> {
    let alloc = rt.alloc();
    let labels = labels(alloc)?;
    let a = name(alloc, b"A")?;
    assert_eq!(rt; labels.count(), 4);
    assert_eq!(rt; labels.count_with(&a, 1), 4);
    assert_eq!(rt; labels.count_with(&a, 2), 5);
    let found = labels.find(&a, 1).ok_or("none")?;
    assert_eq!(rt; found.bytes(), b"dry land".as_slice());
    Ok(())
}

#[test]
fn marks_by_layer_and_value(rt: HostRuntime) -> Result<(), Fail> {
    let alloc = rt.alloc();
    let labels = labels(alloc)?;
    let a = name(alloc, b"A")?;
    assert!(rt; labels.find(&a, 12).is_none());
    assert!(rt; labels.find(&a, 2).is_none());
    assert!(rt; labels.get(4).is_none());
    let latest = labels.get(0).ok_or("none")?;
    assert!(rt; latest.is(&a, 3));
    Ok(())
}

#[test]
fn marks_that_are_dropped(rt: HostRuntime) -> Result<(), Fail> {
    let alloc = rt.alloc();
    let mut labels = labels(alloc)?;
    let before = labels.copy(alloc)?;
    let a = name(alloc, b"A")?;
    labels.drop_name(&a);
    assert_eq!(rt; labels.count(), 2);
    assert!(rt; labels.find(&a, 1).is_none());
    assert_eq!(rt; before.count(), 4);
    Ok(())
}
