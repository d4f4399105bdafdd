// Short words.
ghost use Rattle.std.specs.Prelude.{◌≡◌, ◌+◌, ◌*◌, ◌^◌, length, IfOk, vec_len};

use std::alloc::{AllocError, Global};

// The words of a and b of at most so many bytes, the shorter ones first.
pub fn up_to(heap: Global, most: usize) -> Result<Vec<Vec<u8>>, AllocError>
    ensures { IfOk result (λ words. vec_len words + 1 ≡ 2 ^ (most + 1)) }
{
    let mut words = Vec::new(heap);
    let mut last = vec![in heap; Vec::new(heap)]?;
    for _length in 0..most {
        let longer = one_longer(heap, last.as_slice())?;
        words.append(&mut last)?;
        last = longer;
    }
    words.append(&mut last)?;
    Ok(words)
}

// Each of these words with an a behind it, and with a b.
fn one_longer(heap: Global, words: &[Vec<u8>]) -> Result<Vec<Vec<u8>>, AllocError>
    ensures { IfOk result (λ longer. vec_len longer ≡ 2 * length words.now) }
{
    let mut longer = Vec::new(heap);
    for word in words {
        for letter in b"ab" {
            let mut next = word.clone()?;
            next.push(*letter)?;
            longer.push(next)?;
        }
    }
    Ok(longer)
}
