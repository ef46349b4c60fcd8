//! The words of the two programs.
ghost use Rattle.std.specs.Prelude.{◌≡◌, IfOk, true};
ghost use Rattle.workload.specs.Programs.{head_words as head_words_of, link_words as link_words_of};
ghost use Rattle.workload.specs.Ring.{is_size};

use std::alloc::Global;
use t32_base::lists::List;
use t32_base::streams::NoMemory;

// `li s0, 0`. The number stands in the upper twelve bits, so that those of the workload take one word.
const NO_ROUNDS: u32 = 0x0000_0413;

const ROUND: u32 = 0x0010_0000;

// `head` behind its first word.
const HEAD: [u32; 25] = [
    0x00200893, 0x00100513, 0x000105b7, 0x06058593, 0x00100613, 0x00000073, 0x00300893, 0x00200513,
    0x000105b7, 0x06458593, 0x00100613, 0x00000073, 0x00200893, 0x00000513, 0x000105b7, 0x06058593,
    0x00100613, 0x00000073, 0xfff40413, 0xfa041ae3, 0x00100893, 0x00000513, 0x00000073, 0x0000002e,
    0x00000000,
];

const LINK: [u32; 48] = [
    0x00500893, 0x00000073, 0x06050e63, 0x00058493, 0x00300893, 0x00100513, 0x000105b7, 0x0bc58593,
    0x00100613, 0x00000073, 0x04050863, 0x00200893, 0x00048513, 0x000105b7, 0x0bc58593, 0x00100613,
    0x00000073, 0x00300893, 0x00048513, 0x000105b7, 0x0bc58593, 0x00100613, 0x00000073, 0x00200893,
    0x00200513, 0x000105b7, 0x0bc58593, 0x00100613, 0x00000073, 0xf9dff06f, 0x00100893, 0x00000513,
    0x00000073, 0x00300893, 0x00100513, 0x000105b7, 0x0bc58593, 0x00100613, 0x00000073, 0xfc050ee3,
    0x00200893, 0x00100513, 0x000105b7, 0x0bc58593, 0x00100613, 0x00000073, 0xfcdff06f, 0x00000000,
];

/// The words of `head`, with this number of rounds.
pub fn head_words(alloc: Global, size: u32) -> Result<List<u32>, NoMemory>
    requires { is_size size ≡ true }
    ensures { IfOk result (λ words. words ≡ head_words_of size) }
{
    let mut words = Vec::new(alloc);
    words.push(NO_ROUNDS + ROUND * size)?;
    words.extend_from_slice(&HEAD)?;
    Ok(List::from_vec(words))
}

/// The words of `link`.
pub fn link_words(alloc: Global) -> Result<List<u32>, NoMemory>
    ensures { IfOk result (λ words. words ≡ link_words_of) }
{
    Ok(List::from_vec(LINK.to_vec(alloc)?))
}
