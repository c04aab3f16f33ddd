//! A test of what no clause says: that `push` doesn't want memory where there is some.

use sc_journal::{Journal, PushRefused};
use std::test::Fail;

#[test]
fn an_item_is_put_up_to_the_limits(rt: HostRuntime) -> Result<(), Fail> {
    let mut journal: Journal<u8> = Journal::new(rt.alloc(), 2, 5);
    assert!(rt; journal.push(7, 4).is_ok());
    assert!(rt;
        matches!(
            journal.push(8, 2),
            Err(PushRefused::Full {
                item: 8,
                most_items: 2,
                most_bytes: 5
            })
        )
    );
    assert!(rt; journal.push(8, 1).is_ok());
    assert!(rt; matches!(journal.push(9, 0), Err(PushRefused::Full { item: 9, .. })));
    assert_eq!(rt; journal.len(), 2);
    assert_eq!(rt; journal.get(1), Some(&8));
    assert_eq!(rt; journal.get(2), None);
    Ok(())
}
