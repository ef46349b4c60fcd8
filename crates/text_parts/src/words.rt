//! Words as hexadecimal digits.
ghost use Rattle.std.specs.Prelude.{◌≡◌, ◌+◌, ◌*◌, ◌/◌, ◌%◌, ◌++◌, OnOk};
ghost use Rattle.std.specs.List.{flat_map};
ghost use Rattle.text_parts.specs.Words.{digit_of, spaced};

use t32_base::lists::Text;
use t32_base::streams::NoMemory;

// The upper hexadecimal digit of each byte, and 256 times the lower one.
const DIGITS: [u16; 256] = [
    12336, 12592, 12848, 13104, 13360, 13616, 13872, 14128, 14384, 14640, 24880, 25136, 25392,
    25648, 25904, 26160, 12337, 12593, 12849, 13105, 13361, 13617, 13873, 14129, 14385, 14641,
    24881, 25137, 25393, 25649, 25905, 26161, 12338, 12594, 12850, 13106, 13362, 13618, 13874,
    14130, 14386, 14642, 24882, 25138, 25394, 25650, 25906, 26162, 12339, 12595, 12851, 13107,
    13363, 13619, 13875, 14131, 14387, 14643, 24883, 25139, 25395, 25651, 25907, 26163, 12340,
    12596, 12852, 13108, 13364, 13620, 13876, 14132, 14388, 14644, 24884, 25140, 25396, 25652,
    25908, 26164, 12341, 12597, 12853, 13109, 13365, 13621, 13877, 14133, 14389, 14645, 24885,
    25141, 25397, 25653, 25909, 26165, 12342, 12598, 12854, 13110, 13366, 13622, 13878, 14134,
    14390, 14646, 24886, 25142, 25398, 25654, 25910, 26166, 12343, 12599, 12855, 13111, 13367,
    13623, 13879, 14135, 14391, 14647, 24887, 25143, 25399, 25655, 25911, 26167, 12344, 12600,
    12856, 13112, 13368, 13624, 13880, 14136, 14392, 14648, 24888, 25144, 25400, 25656, 25912,
    26168, 12345, 12601, 12857, 13113, 13369, 13625, 13881, 14137, 14393, 14649, 24889, 25145,
    25401, 25657, 25913, 26169, 12385, 12641, 12897, 13153, 13409, 13665, 13921, 14177, 14433,
    14689, 24929, 25185, 25441, 25697, 25953, 26209, 12386, 12642, 12898, 13154, 13410, 13666,
    13922, 14178, 14434, 14690, 24930, 25186, 25442, 25698, 25954, 26210, 12387, 12643, 12899,
    13155, 13411, 13667, 13923, 14179, 14435, 14691, 24931, 25187, 25443, 25699, 25955, 26211,
    12388, 12644, 12900, 13156, 13412, 13668, 13924, 14180, 14436, 14692, 24932, 25188, 25444,
    25700, 25956, 26212, 12389, 12645, 12901, 13157, 13413, 13669, 13925, 14181, 14437, 14693,
    24933, 25189, 25445, 25701, 25957, 26213, 12390, 12646, 12902, 13158, 13414, 13670, 13926,
    14182, 14438, 14694, 24934, 25190, 25446, 25702, 25958, 26214,
];

// The two digits of a byte.
fn digits(byte: u8) -> u16
    ensures { result ≡ digit_of (byte / 16) + 256 * digit_of (byte % 16) }
{
    DIGITS[usize::from(byte)]
}

// A space, and the eight digits of a word.
fn word_field(word: u32) -> [u8; 9]
    ensures { result ≡ spaced word }
{
    let a = digits((word / 0x100_0000) as u8);
    let b = digits((word / 0x1_0000 % 0x100) as u8);
    let c = digits((word / 0x100 % 0x100) as u8);
    let d = digits((word % 0x100) as u8);
    [
        b' ',
        (a % 0x100) as u8,
        (a / 0x100) as u8,
        (b % 0x100) as u8,
        (b / 0x100) as u8,
        (c % 0x100) as u8,
        (c / 0x100) as u8,
        (d % 0x100) as u8,
        (d / 0x100) as u8,
    ]
}

/// Puts each word at the end of a text, as a space and its eight hexadecimal digits in lower case. After want of memory
/// nothing is said of what was put.
pub fn push_words(text: &mut Text, words: &[u32]) -> Result<(), NoMemory>
    ensures { OnOk result (text.new ≡ text.old ++ flat_map spaced words.now) }
{
    // Most lines have eight words.
    if let [a, b, c, d, e, f, g, h] = words {
        let fields = [
            word_field(*a),
            word_field(*b),
            word_field(*c),
            word_field(*d),
            word_field(*e),
            word_field(*f),
            word_field(*g),
            word_field(*h),
        ];
        return text.extend(fields.as_flattened());
    }
    for word in words {
        text.extend(&word_field(*word))?;
    }
    Ok(())
}
