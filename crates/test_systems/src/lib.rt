//! The texts of the systems that the crates of tests run, with schedules of them.
#![tactic(auto)]

/// Writes three bytes to its terminal and exits.
pub const HI: &str =
    "clusters 2\npager 0 1\nsyncreads 32\nsyncsteps 4096\nimage hi 1\nwords 00200893 00000513 000105b7 02458593 00300613 00000073 00100893 00000513\nwords 00000073 000a6968\nend\nroot 0 1 quarter hi 1000 0 0\n";

/// Writes two bytes to its terminal, twice, and exits.
pub const TWO: &str =
    "clusters 2\npager 0 1\nsyncreads 32\nsyncsteps 4096\nasm two 1\nli a7, 2\nli a0, 0\nla a1, m\nli a2, 2\necall\naddi a1, a1, 2\nli a0, 0\necall\nli a7, 1\nli a0, 0\necall\nm: .ascii \"a\\nb\\n\"\nend\nroot 0 1 quarter two 1000 0 0\n";

/// Its first word is no instruction.
pub const BAD: &str =
    "clusters 2\npager 0 1\nsyncreads 32\nsyncsteps 4096\nimage bad 1\nwords 00000000\nend\nroot 0 1 quarter bad 1000 0 0\n";

/// Jumps to itself, and may execute one instruction.
pub const SPIN: &str =
    "clusters 2\npager 0 1\nsyncreads 32\nsyncsteps 4096\nimage spin 1\nwords 0000006f\nend\nroot 0 1 quarter spin 1 0 0\n";

/// The first system as a person would write it, with its program in assembler.
pub const COMMENTED: &str =
    "# says hi\n\n  clusters 02\npager 0 1\nsyncreads 32\nsyncsteps 4096\nasm hi 1\n  li a7, 2   # write\n  li a0, 0\n  la a1, text\n  li a2, 3\n  ecall\n  li a7, 1   # exit\n  li a0, 0\n  ecall\ntext: .ascii \"hi\\n\"\nend\nroot 0 1 quarter hi 1000 0 0";

/// Two roots of one image, each with a terminal of its own.
pub const PAIR: &str =
    "clusters 2\npager 0 1\nsyncreads 32\nsyncsteps 4096\nimage bad 1\nwords 00000000\nend\nroot 1 0 quarter bad 9 0 3\nroot 0 1 full bad 9 2 2\n";

/// Two roots that a channel links.
pub const LINKED: &str =
    "clusters 2\npager 0 1\nsyncreads 32\nsyncsteps 4096\nimage bad 1\nwords 00000000\nend\nroot 0 1 quarter bad 9 0 0\nroot 0 1 quarter bad 9 0 0\nchan 1 2\n";

/// Two roots at home in one cluster.
pub const NEIGHBOURS: &str =
    "clusters 2\npager 0 1\nsyncreads 32\nsyncsteps 4096\nimage bad 1\nwords 00000000\nend\nroot 0 1 quarter bad 9 0 0\nroot 0 1 quarter bad 9 0 1\n";

/// Two roots that a channel links, each of which reads a letter that never comes.
pub const WAIT: &str =
    "clusters 2\npager 0 1\nsyncreads 32\nsyncsteps 4096\nimage wait 1\nwords 00300893 00100513 000105b7 00100613 00000073\nend\nroot 0 1 quarter wait 1000 0 0\nroot 1 0 quarter wait 1000 0 0\nchan 1 2\n";

/// The same two roots at home in one cluster.
pub const WAITING_NEIGHBOURS: &str =
    "clusters 2\npager 0 1\nsyncreads 32\nsyncsteps 4096\nimage wait 1\nwords 00300893 00100513 000105b7 00100613 00000073\nend\nroot 0 1 quarter wait 1000 0 0\nroot 0 1 quarter wait 1000 0 0\nchan 1 2\n";

/// One root writes two bytes to another, which writes them to its terminal.
pub const CHANNEL: &str =
    "clusters 2\npager 0 1\nsyncreads 1\nsyncsteps 4096\nasm reader 1\nli a7, 3\nli a0, 1\nla a1, m\nli a2, 2\necall\nmv a2, a0\nli a7, 2\nli a0, 0\necall\nli a7, 1\nli a0, 0\necall\nm: .word 0\nend\nasm writer 1\nli a7, 2\nli a0, 1\nla a1, m\nli a2, 2\necall\nli a7, 1\nli a0, 0\necall\nm: .ascii \"x\\n\"\nend\nroot 0 1 quarter reader 1000 0 0\nroot 1 0 quarter writer 1000 0 0\nchan 1 2\n";

/// The same with more letters between two synchronisations than there are.
pub const TALK: &str =
    "clusters 2\npager 0 1\nsyncreads 32\nsyncsteps 4096\nasm reader 1\nli a7, 3\nli a0, 1\nla a1, m\nli a2, 2\necall\nmv a2, a0\nli a7, 2\nli a0, 0\necall\nli a7, 1\nli a0, 0\necall\nm: .word 0\nend\nasm writer 1\nli a7, 2\nli a0, 1\nla a1, m\nli a2, 2\necall\nli a7, 1\nli a0, 0\necall\nm: .ascii \"x\\n\"\nend\nroot 0 1 quarter reader 1000 0 0\nroot 1 0 quarter writer 1000 0 0\nchan 1 2\n";

/// The conversation of the examples: one root asks two others who they are.
pub const CONVERSATION: &str =
    "clusters 3\npager 0 1\nsyncreads 32\nsyncsteps 4096\nasm asker 1\nli s0, 1\nask:\nli a7, 2\nmv a0, s0\nla a1, question\nli a2, 5\necall\naddi s0, s0, 1\nli t0, 3\nblt s0, t0, ask\nli s0, 2\nhear:\nli a7, 4\nla a0, line\nli a1, 16\necall\nmv a2, a0\nli a7, 2\nli a0, 0\nla a1, line\necall\naddi s0, s0, -1\nbne s0, zero, hear\nli a7, 10\nli a0, 1\necall\nli a7, 10\nli a0, 2\necall\nli a7, 1\nli a0, 0\necall\nquestion: .ascii \"who?\\n\"\nline: .ascii \"                \"\nend\nasm answerer 1\nli s0, 0\nhear:\nli a7, 3\nli a0, 1\nla a1, heard\nli a2, 16\necall\nbeq a0, zero, over\nli a7, 6\necall\naddi t0, a0, 32\nla t1, line\nsb t0, 8(t1)\nli a7, 2\nli a0, 1\nmv a1, t1\nli a2, 10\necall\naddi s0, s0, 1\nj hear\nover:\nli a7, 1\nmv a0, s0\necall\nheard: .ascii \"                \"\nline: .ascii \"cluster ?\\n\"\nend\nroot 0 1 quarter asker 1000 0 0\nroot 1 2 quarter answerer 1000 0 1\nroot 2 0 quarter answerer 1000 0 2\nchan 1 2\nchan 1 3\n";

/// The same conversation, with its programs as words.
pub const CONVERSATION_IMAGES: &str =
    "clusters 3\npager 0 1\nsyncreads 32\nsyncsteps 4096\nimage asker 1\nwords 00100413 00200893 00040513 000105b7 08458593 00500613 00000073 00140413\nwords 00300293 fe5440e3 00200413 00400893 00010537 08c50513 01000593 00000073\nwords 00050613 00200893 00000513 000105b7 08c58593 00000073 fff40413 fc0418e3\nwords 00a00893 00100513 00000073 00a00893 00200513 00000073 00100893 00000513\nwords 00000073 3f6f6877 0000000a 20202020 20202020 20202020 20202020\nend\nimage answerer 1\nwords 00000413 00300893 00100513 000105b7 06058593 01000613 00000073 02050c63\nwords 00600893 00000073 02050293 00010337 07030313 00530423 00200893 00100513\nwords 00030593 00a00613 00000073 00140413 fb5ff06f 00100893 00040513 00000073\nwords 20202020 20202020 20202020 20202020 73756c63 20726574 00000a3f\nend\nroot 0 1 quarter asker 1000 0 0\nroot 1 2 quarter answerer 1000 0 1\nroot 2 0 quarter answerer 1000 0 2\nchan 1 2\nchan 1 3\n";

/// Three roots at home in one cluster, each of which writes its letter twice to a terminal of its own.
pub const THREE: &str =
    "clusters 2\npager 0 1\nsyncreads 32\nsyncsteps 4096\nasm a 1\nli a7, 2\nli a0, 0\nla a1, m\nli a2, 1\necall\nli a0, 0\necall\nli a7, 1\nli a0, 0\necall\nm: .ascii \"a\"\nend\nasm b 1\nli a7, 2\nli a0, 0\nla a1, m\nli a2, 1\necall\nli a0, 0\necall\nli a7, 1\nli a0, 0\necall\nm: .ascii \"b\"\nend\nasm c 1\nli a7, 2\nli a0, 0\nla a1, m\nli a2, 1\necall\nli a0, 0\necall\nli a7, 1\nli a0, 0\necall\nm: .ascii \"c\"\nend\nroot 0 1 quarter a 1000 0 0\nroot 0 1 quarter b 1000 0 1\nroot 0 1 quarter c 1000 0 2\n";

/// Two roots at home in one cluster: the first jumps to itself, the other writes to its terminal.
pub const BUSY: &str =
    "clusters 2\npager 0 1\nsyncreads 32\nsyncsteps 4096\nimage spin 1\nwords 0000006f\nend\nimage hi 1\nwords 00200893 00000513 000105b7 02458593 00300613 00000073 00100893 00000513\nwords 00000073 000a6968\nend\nroot 0 1 quarter spin 200 0 0\nroot 0 1 quarter hi 1000 0 1\n";

/// Two processes in two clusters: each writes three bytes to its own terminal and exits.
pub const TWO_HI: &str =
    "clusters 2\npager 0 1\nsyncreads 32\nsyncsteps 4096\nimage hi 1\nwords 00200893 00000513 000105b7 02458593 00300613 00000073 00100893 00000513\nwords 00000073 000a6968\nend\nroot 0 1 quarter hi 1000 0 0\nroot 1 0 quarter hi 1000 0 1\n";

/// Four processes in four clusters, round which a letter goes three times: each writes it in a line on its own
/// terminal and sends the next one on.
pub const RING: &str =
    "clusters 4\npager 0 1\nsyncreads 32\nsyncsteps 4096\nimage first 1\nwords 00300493 00200893 00100513 000105b7 07458593 00400613 00000073 00300893\nwords 00200513 000105b7 07458593 00400613 00000073 00200893 00000513 000105b7\nwords 07458593 00200613 00000073 000102b7 07428293 00028303 00130313 00628023\nwords fff48493 fa0490e3 00100893 00000513 00000073 20200a61\nend\nimage next 1\nwords 00300493 00300893 00100513 000105b7 07458593 00400613 00000073 00200893\nwords 00000513 000105b7 07458593 00200613 00000073 000102b7 07428293 00028303\nwords 00130313 00628023 00200893 00200513 000105b7 07458593 00400613 00000073\nwords fff48493 fa0490e3 00100893 00000513 00000073 20200a61\nend\nroot 0 1 quarter first 1000 0 0\nroot 1 2 quarter next 1000 0 1\nroot 2 3 quarter next 1000 0 2\nroot 3 0 quarter next 1000 0 3\nchan 1 2\nchan 2 3\nchan 3 4\nchan 4 1\n";

/// Forks; the child writes two bytes to the terminal, and both exit.
pub const FORKER: &str =
    "clusters 2\npager 0 1\nsyncreads 32\nsyncsteps 4096\nasm forker 1\nli a7, 5\necall\nbeq a0, x0, kid\nli a7, 1\nli a0, 0\necall\nkid:\nli a7, 2\nli a0, 0\nla a1, m\nli a2, 2\necall\nli a7, 1\nli a0, 0\necall\nm: .ascii \"c\\n\"\nend\nroot 0 1 quarter forker 1000 1 0\n";

/// Four generations: each writes its letter in a line to the terminal, forks the next one, and exits at once.
pub const CHAIN: &str =
    "clusters 3\npager 0 1\nsyncreads 32\nsyncsteps 4096\nasm chain 1\nli s0, 4\nli s1, 97\nagain:\nla a1, m\nsb s1, 0(a1)\nli a7, 2\nli a0, 0\nli a2, 2\necall\naddi s0, s0, -1\nbeq s0, zero, over\nli a7, 5\necall\nbne a0, zero, over\naddi s1, s1, 1\nj again\nover:\nli a7, 1\nli a0, 0\necall\nm: .ascii \"x\\n\"\nend\nroot 2 0 quarter chain 1000 7 0\n";

/// Three generations: each but the last forks two children and passes on what they say, first the elder. The last ones say a letter each, and the
/// root writes what it hears to the terminal.
pub const TREE: &str =
    "clusters 2\npager 0 1\nsyncreads 32\nsyncsteps 4096\nasm tree 1\nli s0, 2\nmain:\nbeq s0, zero, leaf\nli s2, 2\nbear:\nli a7, 5\necall\nbeq a0, zero, child\nmv s3, s4\nmv s4, a1\naddi s2, s2, -1\nbne s2, zero, bear\nli s2, 2\nhear:\nli a7, 3\nmv a0, s3\nla a1, m\nli a2, 1\necall\nbeq a0, zero, next\nli a7, 2\nmv a0, s5\nla a1, m\nli a2, 1\necall\nj hear\nnext:\nmv s3, s4\naddi s2, s2, -1\nbne s2, zero, hear\nover:\nli a7, 1\nli a0, 0\necall\nchild:\nli s5, 1\naddi s0, s0, -1\nadd s1, s1, s1\nadd s1, s1, s2\nj main\nleaf:\nli t0, 103\nsub t0, t0, s1\nla a1, m\nsb t0, 0(a1)\nli a7, 2\nli a0, 1\nli a2, 1\necall\nj over\nm: .word 0\nend\nroot 0 1 quarter tree 1000 13 0\n";

/// The server of the examples, which forks a child for each of two clients.
pub const SERVER: &str =
    "clusters 3\npager 0 1\nsyncreads 32\nsyncsteps 4096\nasm server 1\nli s0, 1\naccept:\nli a7, 3\nmv a0, s0\nla a1, word\nli a2, 16\necall\nmv s1, a0\nli a7, 5\necall\nbeq a0, zero, child\nla t0, ends\nadd t0, t0, s0\nsb a1, 0(t0)\naddi s0, s0, 1\nli t1, 3\nblt s0, t1, accept\nli s0, 1\nanswer:\nla t0, ends\nadd t0, t0, s0\nlb a0, 0(t0)\nli a7, 3\nla a1, word\nli a2, 16\necall\nmv a2, a0\nli a7, 2\nmv a0, s0\nla a1, word\necall\naddi s0, s0, 1\nli t1, 3\nblt s0, t1, answer\nli a7, 1\nli a0, 0\necall\nchild:\nla t0, word\naddi t1, s1, -1\ncapital:\nlb t2, 0(t0)\naddi t2, t2, -32\nsb t2, 0(t0)\naddi t0, t0, 1\naddi t1, t1, -1\nbne t1, zero, capital\nli a7, 2\nli a0, 1\nla a1, word\nmv a2, s1\necall\nli a7, 1\nli a0, 0\necall\nends: .word 0\nword: .ascii \"                \"\nend\nasm hello 1\nli a7, 2\nli a0, 1\nla a1, word\nli a2, 6\necall\nli a7, 3\nli a0, 1\nla a1, word\nli a2, 16\necall\nmv a2, a0\nli a7, 2\nli a0, 0\nla a1, word\necall\nli a7, 1\nli a0, 0\necall\nword: .ascii \"hello\\n          \"\nend\nasm again 1\nli a7, 2\nli a0, 1\nla a1, word\nli a2, 6\necall\nli a7, 3\nli a0, 1\nla a1, word\nli a2, 16\necall\nmv a2, a0\nli a7, 2\nli a0, 0\nla a1, word\necall\nli a7, 1\nli a0, 0\necall\nword: .ascii \"again\\n          \"\nend\nroot 0 1 quarter server 1000 3 0\nroot 1 2 quarter hello 1000 0 1\nroot 2 0 quarter again 1000 0 2\nchan 1 2\nchan 1 3\n";

/// Sets a handler, signals itself and exits; the handler writes two bytes to the terminal.
pub const SIGNALLER: &str =
    "clusters 2\npager 0 1\nsyncreads 32\nsyncsteps 4096\nasm sig 1\nla a0, h\nli a7, 7\necall\nli a7, 6\necall\nli a1, 10\nli a7, 8\necall\nli a7, 1\nli a0, 0\necall\nh:\nli a7, 2\nli a0, 0\nla a1, m\nli a2, 2\necall\nli a7, 9\necall\nm: .ascii \"s\\n\"\nend\nroot 0 1 quarter sig 1000 0 0\n";

/// Signals its child before that is born, and forks it; both exit.
pub const EARLY: &str =
    "clusters 2\npager 0 1\nsyncreads 32\nsyncsteps 4096\nasm early 1\nli a0, 32\nli a1, 9\nli a7, 8\necall\nli a7, 5\necall\nli a7, 1\nli a0, 0\necall\nend\nroot 0 1 quarter early 1000 1 0\n";

/// Two roots. The second hears the first three times, and each time signals it before it answers. The first writes a letter by its
/// first handler, which asks again and puts another in its place; the next one writes another letter and removes itself; so the third
/// signal kills. A fourth goes to the ended.
pub const SIGNALLED: &str =
    "clusters 3\npager 0 1\nsyncreads 32\nsyncsteps 4096\nasm target 1\nla a0, first\nli a7, 7\necall\nask:\nli a7, 2\nli a0, 1\nla a1, word\nli a2, 1\necall\nli a7, 3\nli a0, 1\nla a1, word\nli a2, 1\necall\nj ask\nfirst:\nli a7, 2\nli a0, 0\nla a1, a\nli a2, 1\necall\nli a0, 1\necall\nli a7, 3\nli a0, 1\nla a1, word\nli a2, 1\necall\nla a0, second\nli a7, 7\necall\nli a7, 9\necall\nsecond:\nli a7, 2\nli a0, 0\nla a1, b\nli a2, 1\necall\nli a0, 0\nli a7, 7\necall\nli a7, 9\necall\na: .ascii \"a\"\nb: .ascii \"b\"\nword: .ascii \"?\"\nend\nasm sender 1\nli s0, 5\nhear:\nli a7, 3\nli a0, 1\nla a1, word\nli a2, 1\necall\nbeq a0, zero, over\nli a7, 8\nli a0, 16\nmv a1, s0\necall\nli a7, 2\nli a0, 1\nla a1, word\nli a2, 1\necall\naddi s0, s0, 1\nj hear\nover:\nli a7, 8\nli a0, 16\nli a1, 9\necall\nli a7, 2\nli a0, 0\nla a1, k\nli a2, 2\necall\nli a7, 1\nli a0, 0\necall\nword: .ascii \"?\"\nk: .ascii \"k\\n\"\nend\nroot 0 1 quarter target 1000 0 0\nroot 1 2 quarter sender 1000 0 1\nchan 1 2\n";

/// The first system up to its sixth line.
pub const CUT: &str =
    "clusters 2\npager 0 1\nsyncreads 32\nsyncsteps 4096\nimage hi 1\nwords 00200893 00000513 000105b7 02458593 00300613 00000073 00100893 00000513\n";

/// The first system with a root whose backup stands in its home.
pub const SAME: &str =
    "clusters 2\npager 0 1\nsyncreads 32\nsyncsteps 4096\nimage hi 1\nwords 00200893 00000513 000105b7 02458593 00300613 00000073 00100893 00000513\nwords 00000073 000a6968\nend\nroot 0 0 quarter hi 1000 0 0\n";

/// Schedules of the first system: whole, with an item that cannot be applied, with one that cannot be read,
/// and with one that is missing.
pub const WHOLE: &str = "schedule 2\nrun 16 6\n# the rest\nrun 16 4\n";

pub const TOO_MANY_STEPS: &str = "schedule 2\nrun 16 6\nrun 16 5\n";

pub const NO_STEPS: &str = "schedule 2\nrun 16 0\nrun 16 5\n";

pub const MISSING: &str = "schedule 3\nrun 16 6\nrun 16 5\n";

/// The schedule by which two clusters run the roots of the channel.
pub const CHANNEL_SCHEDULE: &str =
    "schedule 7\nrun 17 6\nrun 17 4\nrun 16 6\nrun 17 1\nrun 16 4\nrun 16 4\nrun 16 1\n";

/// The program of the first system, and its words.
pub const HI_PROGRAM: &str =
    "li a7, 2\nli a0, 0\nla a1, m\nli a2, 3\necall\nli a7, 1\nli a0, 0\necall\nm: .ascii \"hi\\n\"\n";

pub const HI_WORDS: &str =
    "words 00200893 00000513 000105b7 02458593 00300613 00000073 00100893 00000513\nwords 00000073 000a6968\n";
