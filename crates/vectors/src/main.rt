// Runs test vectors that the authors of FNV published for FNV-1a of 32 bits. Each line has the vector's
// place in this program, what `hash::hash32` answers, and whether that is the published value.
#![tactic(auto)]

// Where the lines go: standard output, by its number.
const STDOUT_FILENO: i32 = 1;

// A key, and the hash that is published for it.
#[derive(Clone, Copy)]
struct Vector<'a>(&'a [u8], u32);

fn text(bytes: &[u8]) {
    io::write_all(STDOUT_FILENO, bytes);
}

// Eight hexadecimal digits.
fn digits(hash: u32) {
    io::print_hex(STDOUT_FILENO, u64::from(hash), 8);
}

// Hashes one key and compares the answer with the published one.
fn run(place: usize, vector: &Vector<'_>) {
    let hash = hash::hash32(vector.0);
    let published = vector.1;
    io::print_decimal(STDOUT_FILENO, place as u64);
    text(b" ");
    digits(hash);
    if hash == published {
        text(b" as published\n");
    } else {
        text(b" but published is ");
        digits(published);
        text(b"\n");
    }
}

fn main() {
    let vectors = [
        // Nothing, one letter, and foobar letter by letter.
        Vector(b"", 0x811c_9dc5),
        Vector(b"a", 0xe40c_292c),
        Vector(b"b", 0xe70c_2de5),
        Vector(b"c", 0xe60c_2c52),
        Vector(b"d", 0xe10c_2473),
        Vector(b"e", 0xe00c_22e0),
        Vector(b"f", 0xe30c_2799),
        Vector(b"fo", 0x6222_e842),
        Vector(b"foo", 0xa9f3_7ed7),
        Vector(b"foob", 0x3f50_76ef),
        Vector(b"fooba", 0x39aa_a18a),
        Vector(b"foobar", 0xbf9c_f968),
        // Most of the same, each with a zero byte after it.
        Vector(b"\0", 0x050c_5d1f),
        Vector(b"b\0", 0x9d2c_3f7f),
        Vector(b"c\0", 0x7729_c516),
        Vector(b"d\0", 0xb91d_6109),
        Vector(b"e\0", 0x931a_e6a0),
        Vector(b"f\0", 0x0522_55db),
        Vector(b"fo\0", 0xbef3_9fe6),
        Vector(b"foo\0", 0x6150_ac75),
        Vector(b"foob\0", 0x9aab_3a3d),
        Vector(b"fooba\0", 0x519c_4c3e),
        Vector(b"foobar\0", 0x0c1c_9eb8),
        // Two sentences and two words, with and without a line end, with and without a zero byte after them.
        Vector(b"chongo was here!", 0x4485_24fd),
        Vector(b"chongo was here!\n", 0xd499_30d5),
        Vector(b"chongo was here!\0", 0xda99_3a47),
        Vector(b"chongo was here!\n\0", 0x8227_df4f),
        Vector(b"curds and whey", 0x22d5_344e),
        Vector(b"curds and whey\n", 0x19a1_470c),
        Vector(b"curds and whey\0", 0x23a1_56ca),
        Vector(b"curds and whey\n\0", 0x64e2_d7e4),
        Vector(b"hi", 0x683a_f69a),
        Vector(b"hi\0", 0xaed2_346e),
        Vector(b"hello", 0x4f9f_2cab),
        Vector(b"hello\0", 0x0293_5131),
        // Four bytes: the largest first or last, and the same bytes in both orders.
        Vector(b"\xff\0\0\x01", 0xc48f_b86d),
        Vector(b"\x01\0\0\xff", 0x2269_f369),
        Vector(b"\xff\0\0\x02", 0xc18f_b3b4),
        Vector(b"\x02\0\0\xff", 0x50ef_1236),
        Vector(b"\xff\0\0\x03", 0xc28f_b547),
        Vector(b"\x03\0\0\xff", 0x96c3_bf47),
        Vector(b"\xff\0\0\x04", 0xbf8f_b08e),
        Vector(b"\x04\0\0\xff", 0xf3e4_d49c),
        Vector(b"@QND", 0x3217_9058),
        Vector(b"DNQ@", 0x280b_fee6),
        Vector(b"@QNJ", 0x3017_8d32),
        Vector(b"JNQ@", 0x21ad_daf8),
    ];
    for (i, vector) in vectors.iter().enumerate() {
        run(i + 1, vector);
    }
}
