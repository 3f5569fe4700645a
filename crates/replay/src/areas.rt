// The memory that all questions are answered in: the questions, the texts of one, the two work areas that such a text asks for (8n + 64 and
// 12n + 64), room for a table's body, for an answer, for the book and for the records of a text of 2,049 lines. Assumes nothing.
use rules::RECORD_WIDTH;

pub fn input() -> [u8; 2097152] {
    [0; 2097152]
}

pub fn text_area() -> [u8; 2048] {
    [0; 2048]
}

pub fn byte_area() -> [u8; 16448] {
    [0; 16448]
}

pub fn word_area() -> [u32; 24640] {
    [0; 24640]
}

pub fn body_area() -> [u8; 49152] {
    [0; 49152]
}

pub fn out_area() -> [u8; 98305] {
    [0; 98305]
}

pub fn book_area() -> [u8; 65536] {
    [0; 65536]
}

pub const RESULTS: usize = 2049 * RECORD_WIDTH;

pub fn results_area() -> [u32; RESULTS] {
    [0; RESULTS]
}
