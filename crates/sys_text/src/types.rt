//! What the types say of a system, as facts for its rules. It costs a walk over the images and the roots.
ghost use Rattle.std.specs.Prelude.{◌≡◌, true, nat_lt};
ghost use Rattle.std.specs.List.{list_all};
ghost use Rattle.sys_text.specs.Valid.{is_word};
ghost use Rattle.sys_text.specs.Types.{have_words, have_numbers};

use crate::system::{Image, Root};

fn words_fit(_words: &[u32])
    ensures { list_all is_word _words.now ≡ true }
{}

/// The words of each image have 32 bits.
pub fn all_words_fit(images: &[Image])
    ensures { have_words images.now ≡ true }
{
    for image in images {
        words_fit(image.words.as_slice());
    }
}

fn number_fits(root: Root)
    ensures { nat_lt root.image 18446744073709551616 ≡ true }
{
    let _image = root.image;
}

/// The number of each root's image has 64 bits.
pub fn all_numbers_fit(roots: &[Root])
    ensures { have_numbers roots.now ≡ true }
{
    for root in roots {
        number_fits(*root);
    }
}
