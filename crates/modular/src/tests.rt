use super::*;

// The largest number that `reduce` takes, by the two smallest and the two largest moduli.
#[test]
fn rests(rt: HostRuntime) {
    assert_eq!(rt; Modulus::new(1).reduce(2047), 0);
    assert_eq!(rt; Modulus::new(2).reduce(2047), 1);
    assert_eq!(rt; Modulus::new(30).reduce(2047), 7);
    assert_eq!(rt; Modulus::new(31).reduce(2047), 1);
}
