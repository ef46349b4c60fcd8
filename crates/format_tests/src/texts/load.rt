//! The workload as a text. The expected one is that of another program.
ghost use Rattle.std.specs.Prelude.{◌≡◌, true};
ghost use Rattle.workload.specs.Ring.{is_size};

use std::alloc::Global;
use std::test::Fail;
use sys_text::printer::system_text;
use t32_base::lists::Text;
use t32_base::streams::NoMemory;
use test_asserts::same;
use workload::workload;

// Where the word stands that has the size.
const FRONT: &str = "clusters 4\npager 0 1\nsyncreads 32\nsyncsteps 4096\nimage head 1\nwords ";

const REST: &str =
    " 00200893 00100513 000105b7 06058593 00100613 00000073 00300893\nwords 00200513 000105b7 06458593 00100613 00000073 00200893 00000513 000105b7\nwords 06058593 00100613 00000073 fff40413 fa041ae3 00100893 00000513 00000073\nwords 0000002e 00000000\nend\nimage link 1\nwords 00500893 00000073 06050e63 00058493 00300893 00100513 000105b7 0bc58593\nwords 00100613 00000073 04050863 00200893 00048513 000105b7 0bc58593 00100613\nwords 00000073 00300893 00048513 000105b7 0bc58593 00100613 00000073 00200893\nwords 00200513 000105b7 0bc58593 00100613 00000073 f9dff06f 00100893 00000513\nwords 00000073 00300893 00100513 000105b7 0bc58593 00100613 00000073 fc050ee3\nwords 00200893 00100513 000105b7 0bc58593 00100613 00000073 fcdff06f 00000000\nend\nroot 0 1 quarter head 100000 0 0\nroot 1 2 quarter link 100000 1 0\nroot 2 3 quarter link 100000 1 0\nroot 3 0 quarter link 100000 1 0\nroot 0 1 quarter link 100000 1 0\nroot 1 2 quarter link 100000 1 0\nroot 2 3 quarter link 100000 1 0\nroot 3 0 quarter link 100000 1 0\nroot 0 1 quarter link 100000 1 0\nroot 1 2 quarter link 100000 1 0\nroot 2 3 quarter link 100000 1 0\nroot 3 0 quarter link 100000 1 0\nroot 0 1 quarter link 100000 1 0\nroot 1 2 quarter link 100000 1 0\nroot 2 3 quarter link 100000 1 0\nroot 3 0 quarter link 100000 1 0\nchan 1 2\nchan 2 3\nchan 3 4\nchan 4 5\nchan 5 6\nchan 6 7\nchan 7 8\nchan 8 9\nchan 9 10\nchan 10 11\nchan 11 12\nchan 12 13\nchan 13 14\nchan 14 15\nchan 15 16\nchan 16 1\n";

fn text_of(alloc: Global, size: u32) -> Result<Text, NoMemory>
    requires { is_size size ≡ true }
{
    let system = workload(alloc, size)?;
    system_text(alloc, &system)
}

fn assert_text(alloc: Global, size: u32, word: &str) -> Result<(), Fail>
    requires { is_size size ≡ true }
{
    let text = text_of(alloc, size)?;
    let wanted = [FRONT, word, REST].concat(alloc)?;
    same("the text", &text.as_slice(), &wanted.as_bytes())
}

#[test]
fn the_workload_is_this_text(rt: HostRuntime) -> Result<(), Fail> {
    assert_text(rt.alloc(), 7, "00700413")?;
    assert_text(rt.alloc(), 1, "00100413")?;
    assert_text(rt.alloc(), 1000, "3e800413")
}
