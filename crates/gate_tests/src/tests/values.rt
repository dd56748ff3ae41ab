//! The values of go_base.
use go_base::boxed::Box;
use go_base::list::List;
use go_base::memory::NoMemory;
use go_base::steps::Steps;
use go_base::text::Text;
use std::alloc::Global;
use std::test::Fail;

fn numbers(alloc: Global) -> Result<List<u64>, NoMemory> {
    let mut list = List::new(alloc);
    list.push(3)?;
    list.push(5)?;
    Ok(list)
}

#[test]
fn holds_what_it_is_given(rt: HostRuntime) -> Result<(), Fail> {
    let alloc = rt.alloc();
    let text = Text::of(alloc, b"abc")?;
    assert!(rt; text == Text::from_vec(alloc, Vec::from_slice(alloc, b"abc")?)?);
    assert!(rt; text < Text::of(alloc, b"abcd")?);
    assert_eq!(rt; text.copy()?.bytes(), b"abc".as_slice());
    let long = b"a text that is longer than fourteen bytes";
    for text in [
        Text::of(alloc, long)?,
        Text::from_vec(alloc, Vec::from_slice(alloc, long)?)?,
    ] {
        assert_eq!(rt; text.bytes(), long.as_slice());
        assert!(rt; text.copy()? == text);
    }
    let boxed = Box::new(alloc, 7u32)?;
    assert_eq!(rt; *boxed.value(), 7);
    assert_eq!(rt; boxed.into_value(), 7);
    let list = List::from_vec(numbers(alloc)?.into_vec());
    assert_eq!(rt; list.items(), [3, 5].as_slice());
    let mut steps = Steps::new(1u8);
    steps.tick();
    let mut other = steps.split();
    other.tick();
    other.tick();
    steps.merge(other);
    assert_eq!(rt; steps.count(), 3);
    assert_eq!(rt; steps.end(), 3);
    Ok(())
}
