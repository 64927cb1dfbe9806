// Runs 01's and 02's worked values of writing, a line for each, and counts them: the leaf writers, then records through `packet_write`, the size
// asked alone before the write. Each line ends with the output, which held aa before, or its first 44 bytes. The file stdout was written
// from 01 and 02. hand.rt has the fields of a row.
#![tactic(auto)]

mod hand;
mod show;
mod text;

// 01's "Lengths", and the ends of each width by its grammar: seven bits a byte, low group first, up to 268,435,455. Above that row 17, and
// last of all row 19, here one byte short (01, writing order).
fn lengths(rows: u64) -> u64 {
    hand::table(
        rows,
        b"length 0|L|5||0\n\
        length 127|L|5||127\n\
        length 128|L|5||128\n\
        length 16383|L|5||16383\n\
        length 16384|L|5||16384\n\
        length 2097151|L|5||2097151\n\
        length 2097152|L|5||2097152\n\
        length 268435455|L|5||268435455\n\
        length 268435456|L|5||268435456\n\
        length 4294967295|L|5||4294967295\n\
        length 0 into 0 bytes|L|0||0\n\
        length 128 into 1 byte|L|1||128\n\
        length 16384 into 2 bytes|L|2||16384\n\
        length 268435455 into 3 bytes|L|3||268435455\n\
        length 268435456 into 3 bytes|L|3||268435456\n",
    )
}

// 01's grammar: a string is a u16 length and that many bytes. Row 18 above 65,535 bytes, then row 19, here one byte short.
fn texts(rows: u64) -> u64 {
    let n = hand::table(
        rows,
        b"empty text|T|3\n\
        empty text into 1 byte|T|1\n\
        text a/b|T|6|||a/b\n\
        text a/b into 4 bytes|T|4|||a/b\n\
        text not UTF-8|T|4|||\xFF\n",
    );
    let longest = hand::long(n, b"text of 65535 bytes|T|65540", 65535);
    let short = hand::long(longest, b"text of 65535 bytes into 65536|T|65536", 65535);
    hand::long(short, b"text of 65536 bytes|T|65540", 65536)
}

// The a/b record and its like.
fn messages(rows: u64) -> u64 {
    let n = hand::table(
        rows,
        b"a/b, limit 9|0|18|9||a/b|hi\n\
        a/b, limit 10|0|18|10||a/b|hi\n\
        a/b into 9 bytes|0|9|||a/b|hi\n\
        a/b, QoS 1|1|18||10|a/b|hi\n\
        a/b, QoS 0, identifier 7|0|18||7|a/b|hi\n\
        a/b, QoS 1, no identifier|1|18|||a/b|hi\n\
        a/b, QoS 1, no identifier, limit 9|1|18|9||a/b|hi\n\
        a/b, empty set|0|18|||a/b|hi|-\n\
        a/b, identifiers 1, 128|0|18|||a/b|hi|-|||1,128\n\
        a/b, identifier 268435456|0|18|||a/b|hi|-|||268435456\n\
        a/b, identifier 268435456, limit 0|0|18|0||a/b|hi|-|||268435456\n\
        a/b, user k v|0|18|||a/b|hi|-|kv|1,1\n\
        a/b, user not UTF-8, limit 0|0|18|0||a/b|hi|-|k\xFF|1,1\n\
        a/b, user lengths too long|0|18|||a/b|hi|-|kv|1,18446744073709551615\n\
        a/b, one user length|0|18|||a/b|hi|-|k|1\n\
        a/b, response topic not UTF-8, limit 0|0|18|0||a/b|hi|+||||\xFF\n\
        a/b, bytes for no response topic|0|18|||a/b|hi|-||||r\n\
        a/b, reason string|0|18|||a/b|hi||||||||r\n\
        a/b, identifier for no set|0|18|||a/b|hi||||1\n\
        every property|F|44||258|a|\x09|+|kv|1,1|5,128|b|\xFF|c\n",
    );
    hand::long(n, b"topic of 65536 bytes, limit 0|0|4|0", 65536)
}

fn others(rows: u64) -> u64 {
    hand::table(
        rows,
        b"filter a, options 01|S|10||1|||||||||||a|\x01\n\
        filter a, options c1|S|10||1|||||||||||a|\xC1\n\
        filter a, options 33|S|10||1|||||||||||a|\x33\n\
        filter a, options 03|S|10||1|||||||||||a|\x03\n\
        filter not UTF-8, options 33|S|10||1|||||||||||\xFF|\x33\n\
        filter a, no options|S|10||1|||||||||||a\n\
        no filters, identifier 268435456|I|10||1\n\
        no filters|S|10||1\n\
        PubAck|4|11||10\n\
        PubAck, empty set|4|11||10|||-\n\
        PubAck, reason 0x10|4|11||10|||||||||||||16\n\
        PubAck, reason string a|4|11||10|||+|||||||a\n\
        PubAck, payload|4|11||10||hi\n\
        PingReq|Q|3\n\
        PingResp|R|3\n\
        PingReq, limit 1|Q|3|1\n\
        PingReq, topic, limit 1|Q|3|1||a\n",
    )
}

// 02's six kinds: what is written of each, and the order of 15: before an acknowledgement's texts, after a reply's.
fn six(rows: u64) -> u64 {
    hand::table(
        rows,
        b"PubRec|5|11||10\n\
        PubRel|6|11||10\n\
        PubComp|7|11||10\n\
        PubRec, reason 0x99|5|11||10|||||||||||||153\n\
        PubRel, reason 0x92, reason string a|6|11||10|||+|||||||a|||146\n\
        PubRel, reason 0x10|6|11||10|||||||||||||16\n\
        PubComp, reason 0x80, reason string not UTF-8|7|11||10|||+|||||||\xFF|||128\n\
        SubAck, reasons 0x01, 0x80|9|9||1||||||||||||\x01\x80\n\
        SubAck, no reasons|9|9||1\n\
        SubAck, reason 0x11|9|9||1||||||||||||\x11\n\
        SubAck, filter|9|9||1|||||||||||a|\x01\n\
        UnsubAck, reason 0x11, user k v|V|14||1|||-|kv|1,1|||||||\x11\n\
        UnsubAck, reason 0x01, user not UTF-8|V|14||1|||-|k\xFF|1,1|||||||\x01\n\
        Unsubscribe, topics a, b|U|12||1|||||||||||ab\n\
        Unsubscribe, no topics|U|12||1\n\
        Unsubscribe, topic not UTF-8|U|12||1|||||||||||\xFF\n\
        Unsubscribe, topic a, options|U|12||1|||||||||||a|\x01\n",
    )
}

// 02's rules: subscription identifier 0 is row 23 where 17 stands for a number, U+0000 in a text row 9.
fn zeros(rows: u64) -> u64 {
    hand::table(
        rows,
        b"a/b, identifier 0|0|18|||a/b|hi|-|||0\n\
        a/b, identifier 0, limit 0|0|18|0||a/b|hi|-|||0\n\
        a/b, identifiers 0, 268435456|0|18|||a/b|hi|-|||0,268435456\n\
        a/b, identifiers 268435456, 0|0|18|||a/b|hi|-|||268435456,0\n\
        no filters, identifier 0|Z|10||1\n\
        a/b, user k U+0000|0|18|||a/b|hi|-|k\x00|1,1\n\
        Unsubscribe, topic U+0000|U|12||1|||||||||||\x00\n",
    )
}

fn main() {
    let rows = zeros(six(others(messages(texts(lengths(0))))));
    io::print_decimal(1, rows);
    io::write_all(1, b" rows\n");
}
