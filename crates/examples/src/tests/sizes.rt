// How large the values are that a caller keeps, in bytes.
use codes::Word;
use readings::{Graded, Signed};
use receiving::Received;
use weak::WeakList;

#[test]
fn values_have_their_sizes(rt: HostRuntime) {
    assert_eq!(rt; size_of::<Word>(), 256);
    assert_eq!(rt; size_of::<Received>(), 256);
    assert_eq!(rt; size_of::<WeakList>(), 56);
    assert_eq!(rt; size_of::<Signed>(), 16);
    assert_eq!(rt; size_of::<Graded>(), 16);
}
