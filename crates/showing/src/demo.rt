// The demonstration image: four programs in ASCII, with segment marks, a creation mark and ends of lines in their bodies.

// The code's number and the count of strings; an entry of 25 bytes for each string; then each string's name and body.
pub const DEMO: [u8; 292] = *b"\
    \x01\x07\
    \x08GREETING\0\0\0\0\0\0\0\0\0\0\0\0\0\x08\0\x0A\
    \x08GREETING\0\0\0\0\0\0\0\0\0\0\0\0\0\x08\0\x18\
    \x06SQUARE\0\0\0\0\0\0\0\0\0\0\0\0\0\0\0\x06\0\x09\
    \x05LABEL\0\0\0\0\0\0\0\0\0\0\0\0\0\0\0\0\x05\0\x06\
    \x05TABLE\0\0\0\0\0\0\0\0\0\0\0\0\0\0\0\0\x03\0\x06\
    \x05TABLE\0\0\0\0\0\0\0\0\0\0\0\0\0\0\0\0\x05\0\x14\
    \x05TABLE\0\0\0\0\0\0\0\0\0\0\0\0\0\0\0\0\x05\0\0\
    GREETINGHello, \x81.\n\
    FAREWELLGood-bye, \x81; see you \x82.\n\
    SQUARE#<MU;\x81;\x81>\
    LABELL\xC0: \x81\n\
    ROW\x81 | \x82\n\
    TABLE#<ROW;\x81;\x82>#<ROW;\x83;\x84>\
    EMPTY";
