// The class of a code point up to U+00FF, by a table that is lent: that of an edition.
// From detection/preproc.rs of spdx 0.13.6 (Copyright 2018-2019 Amazon.com, Inc. or its affiliates. All Rights Reserved.
// SPDX-License-Identifier: Apache-2.0), changed: the character sets of its patterns, as one table. Assumes nothing.
ghost use Rattle.std.specs.Prelude.{◌≡◌};
ghost use Rattle.slices.specs.Classes.{in_class, in_either, class_table};

use rules::EDITION_FIRST;

// 1 dropped, 2 the bar, 3 slashes, 4 the digit 4 of edition 1, 5 space, tab and U+00A0, 6 newline, 7 bytes 11 to 13, 8 U+0085, 9 the other digits,
// 10 letters that lower case leaves, 11 upper case, 12 underscore, 13 quotes, 14 dash, 15 opening, 16 closing, 17 other punctuation.
// What the passes ask for is a range of these, or one alone; specs/Classes.antt has the same by name. They are numbers and no enum: the contract of
// `class_table` is over the rules' `class_of`, which gives numbers.
pub const DROPPED_LOW: u8 = 1;

pub const DROPPED_HIGH: u8 = 2;

pub const GAP_LOW: u8 = 2;

pub const GAP_HIGH: u8 = 5;

pub const KEPT_LOW: u8 = 4;

pub const KEPT_HIGH: u8 = 12;

pub const FOUR: u8 = 4;

pub const SPACE_LOW: u8 = 5;

pub const SPACE_HIGH: u8 = 8;

pub const VERTICAL_LOW: u8 = 6;

pub const VERTICAL_HIGH: u8 = 7;

pub const OTHER_DIGIT: u8 = 9;

pub const UPPER: u8 = 11;

pub const UNDERSCORE: u8 = 12;

pub const QUOTE: u8 = 13;

pub const DASH: u8 = 14;

pub const OPENING: u8 = 15;

pub const CLOSING: u8 = 16;

// The digit that line pass 4 takes in the first edition.
const FOUR_BYTE: usize = 52;

// Edition 1's.
const CLASS: [u8; 256] = [
    1, // 0: controls
    1, 1, 1, 1, 1, 1, 1, 1, 5, // tab
    6, // newline
    7, // 11 to 13
    7, 7, 1, // 14 to 31: controls
    1, 1, 1, 1, 1, 1, 1, 1, 1, 1, 1, 1, 1, 1, 1, 1, 1, 5, // space
    17, // !
    13, // "
    17, // #
    1, // $
    17, // %
    17, // &
    13, // '
    15, // (
    16, // )
    17, // *
    1, // +
    17, // ,
    14, // -
    17, // .
    3, // /
    9, // 0
    9, // 1
    9, // 2
    9, // 3
    4, // 4
    9, // 5
    9, // 6
    9, // 7
    9, // 8
    9, // 9
    17, // :
    17, // ;
    1, // <
    1, // =
    1, // >
    17, // ?
    17, // @
    11, // A
    11, // B
    11, // C
    11, // D
    11, // E
    11, // F
    11, // G
    11, // H
    11, // I
    11, // J
    11, // K
    11, // L
    11, // M
    11, // N
    11, // O
    11, // P
    11, // Q
    11, // R
    11, // S
    11, // T
    11, // U
    11, // V
    11, // W
    11, // X
    11, // Y
    11, // Z
    15, // [
    3, // \
    16, // ]
    1, // ^
    12, // _
    1, // `
    10, // a
    10, // b
    10, // c
    10, // d
    10, // e
    10, // f
    10, // g
    10, // h
    10, // i
    10, // j
    10, // k
    10, // l
    10, // m
    10, // n
    10, // o
    10, // p
    10, // q
    10, // r
    10, // s
    10, // t
    10, // u
    10, // v
    10, // w
    10, // x
    10, // y
    10, // z
    15, // {
    2, // |
    16, // }
    1, // ~
    1, // 127: control
    1, // U+0080: controls
    1, 1, 1, 1, 8, // U+0085: next line
    1, // controls
    1, 1, 1, 1, 1, 1, 1, 1, 1, 1, 1, 1, 1, 1, 1, 1, 1, 1, 1, 1, 1, 1, 1, 1, 1, 5, // U+00A0: no-break space
    17, // ¡
    1, // ¢
    1, // £
    1, // ¤
    1, // ¥
    1, // ¦
    17, // §
    1, // ¨
    1, // copyright sign
    10, // ª
    13, // «
    1, // ¬
    1, // soft hyphen
    1, // ®
    1, // ¯
    1, // °
    1, // ±
    1, // ²
    1, // ³
    1, // ´
    10, // µ
    17, // ¶
    17, // ·
    1, // ¸
    1, // ¹
    10, // º
    13, // »
    1, // ¼
    1, // ½
    1, // ¾
    17, // ¿
    11, // À
    11, // Á
    11, // Â
    11, // Ã
    11, // Ä
    11, // Å
    11, // Æ
    11, // Ç
    11, // È
    11, // É
    11, // Ê
    11, // Ë
    11, // Ì
    11, // Í
    11, // Î
    11, // Ï
    11, // Ð
    11, // Ñ
    11, // Ò
    11, // Ó
    11, // Ô
    11, // Õ
    11, // Ö
    1, // multiplication sign
    11, // Ø
    11, // Ù
    11, // Ú
    11, // Û
    11, // Ü
    11, // Ý
    11, // Þ
    10, // ß
    10, // à
    10, // á
    10, // â
    10, // ã
    10, // ä
    10, // å
    10, // æ
    10, // ç
    10, // è
    10, // é
    10, // ê
    10, // ë
    10, // ì
    10, // í
    10, // î
    10, // ï
    10, // ð
    10, // ñ
    10, // ò
    10, // ó
    10, // ô
    10, // õ
    10, // ö
    1, // division sign
    10, // ø
    10, // ù
    10, // ú
    10, // û
    10, // ü
    10, // ý
    10, // þ
    10, // ÿ
];

// The edition's table, made once and lent to every pass: a const is built anew at each use.
pub fn class_table(edition: u32) -> [u8; 256]
    ensures { result ≡ class_table edition }
{
    let mut table = CLASS;
    if edition != EDITION_FIRST {
        table[FOUR_BYTE] = OTHER_DIGIT;
    }
    table
}

// Whether the class of b is from lo to hi.
#[tactic(auto, unfolding(crate::specs::Classes::in_class, rules::specs::Bytes::within))]
pub fn in_class(class: &[u8; 256], lo: u8, hi: u8, b: u8) -> bool
    ensures { result ≡ in_class class.now lo hi b }
{
    let c = class[b as usize];
    lo <= c && c <= hi
}

// Whether it is from lo to hi, or from low to high: the digits are two ranges, since the 4 has a class of its own.
#[tactic(auto, unfolding(crate::specs::Classes::in_either))]
pub fn in_either(class: &[u8; 256], lo: u8, hi: u8, low: u8, high: u8, b: u8) -> bool
    ensures { result ≡ in_either class.now lo hi low high b }
{
    in_class(class, lo, hi, b) || in_class(class, low, high, b)
}
