// Reading an image (document 01, "Which comes first"): field by field, and the first fault met is given.
#![tactic(auto)]

ghost use Rattle.std.specs.Prelude.{◌≡◌};
ghost use Rattle.image.specs.Promises.{ReadIs};
ghost use Rattle.image.specs.Reading.{smallest, read_image};
ghost use Rattle.reading.specs.Promises.{StoreIs};

use columns::Work;
use fields::{finished, read_head};
use image::{Read, ReadFault};
use marks::none;
use store::Store;

// The store that an image stands for, or the first fault met: the head, the shafts, from an empty store on, and the end.
fn read_store(image: &[u8]) -> Result<Store, ReadFault>
    ensures { StoreIs (read_image image.now) result }
{
    let head = read_head(image)?;
    let mut work = Work {
        store: Store::empty(head.m, [0u8; 16]),
        words: none(),
        at: head.at,
    };
    work.read_shafts(image, head)?;
    finished(image, work.at)?;
    Ok(work.store)
}

// The empty store of one shaft of depth 1.
fn smallest() -> Store
    ensures { result ≡ smallest }
{
    let mut depths = [0u8; 16];
    depths[0] = 1;
    Store::empty(1, depths)
}

// The store that an image stands for, or the first fault met with the empty store of one shaft of depth 1.
pub fn read(image: &[u8]) -> Read
    ensures { ReadIs (read_image image.now) result }
{
    match read_store(image) {
        Ok(store) => Read {
            store,
            answer: Ok(()),
        },
        Err(f) => Read {
            store: smallest(),
            answer: Err(f),
        },
    }
}
