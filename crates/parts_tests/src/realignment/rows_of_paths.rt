//! Lines of cells and what they decide, from a model that was written apart from this crate. They stand in
//! texts of rows behind calls, so that no proof sees them.

/// A path of a line. In each list 0 stands for what there is no more.
#[derive(Clone, Copy)]
pub(crate) struct Path {
    /// Of each window the first container that is damaged, the first that isn't, and how many of the last
    /// vanish without a sign.
    pub(crate) windows: [u32; 12],
    /// How many containers it has.
    pub(crate) total: u32,
    /// The numbers that are bad: from one up to another.
    pub(crate) bad: [u32; 12],
    /// The packets that are not read: from one up to another.
    pub(crate) unread: [u32; 12],
}

/// Any cells of a line.
#[derive(Clone, Copy)]
pub(crate) struct Cells {
    /// Two characters for each: it is a good one with this H4 octet, or `--` for a failure.
    pub(crate) cells: &'static str,
    /// The stretches of numbers that they decide: how many, and the cell of the first one's container, or `-`
    /// where they are bad.
    pub(crate) told: &'static str,
}

/// The numbers of a list.
fn numbers(text: &str) -> [u32; 12] {
    let mut numbers = [0; 12];
    for (place, word) in numbers.iter_mut().zip(text.split(' ')) {
        *place = word.parse::<u32>().unwrap_or(0);
    }
    numbers
}

/// The path of a row.
pub(crate) fn path_of(row: &str) -> Path {
    let mut fields = row.split(';');
    Path {
        windows: numbers(fields.next().unwrap_or("")),
        total: numbers(fields.next().unwrap_or(""))[0],
        bad: numbers(fields.next().unwrap_or("")),
        unread: numbers(fields.next().unwrap_or("")),
    }
}

/// The cells of a row.
pub(crate) fn cells_of(row: &'static str) -> Cells {
    let (cells, told) = row.split_once(';').unwrap_or((row, ""));
    Cells { cells, told }
}

/// Sixty-one paths. The first line locks by the containers 144 and 145; the second one by 4,512 and 4,513, whose
/// number is sent as 417; in the third one sixteen containers lie between two windows, by which 2,047 vanish;
/// and in the fourth one a sign comes alone before the greatest slip.
pub(crate) fn path_rows() -> &'static str {
    "\
    100 140 39;200;0 2 100 146;5 9\n\
    3500 4501 1000;5000;0 2 3500 4514;218 282\n\
    100 1505 1023 1521 2913 1024;3000;0 2 100 2930;5 183\n\
    16 2064 2047;2100;0 2 16 2066;0 129\n\
    17 33 0;90;0 2 17 50;0 3\n\
    3 4 0 39 42 2;300;0 2 3 18 39 50;0 3\n\
    7 47 1;120;0 2 7 50;0 3\n\
    2093 2213 119;5506;0 2 2093 2226;130 139\n\
    40 56 15 74 114 0;150;0 2 40 66 74 130;2 8\n\
    58 61 1;150;0 2 58 66;3 4\n\
    9 70 0;120;0 2 9 82;0 5\n\
    58 61 2;90;0 2 58 66;3 4\n\
    0 1 0 2 3 0 19 59 39 75 78 1;150;0 18 19 66 75 82;0 5\n\
    20 21 0 23 39 15;90;0 2 20 50;0 3\n\
    33 35 1 40 56 8 58 98 1;300;0 2 33 114;1 7\n\
    14 24 0;90;0 2 14 34;0 2\n\
    11 12 0 30 94 63 99 139 20;150;0 2 11 18 30 98 99 146;0 8\n\
    30 32 0;90;0 2 30 34;1 2\n\
    9 12 0 27 67 20;90;0 2 9 18 27 82;0 5\n\
    1 41 1;90;0 50;0 3\n\
    59 62 2;90;0 2 59 66;3 4\n\
    3671 4172 250 4189 5269 1079;5513;0 2 3671 4178 4189 5282;228 330\n\
    27 28 0;300;0 2 27 34;1 2\n\
    1 41 39 57 73 1 91 94 0;150;0 50 57 82 91 98;0 6\n\
    11 13 0 46 48 1 65 66 0;120;0 2 11 18 46 50 65 82;0 1 2 5\n\
    57 59 0 74 77 1 78 80 0;90;0 2 57 66 74 82;3 5\n\
    1 41 39 43 44 0;90;0 50;0 3\n\
    53 54 0 71 72 0;90;0 2 53 66 71 82;2 5\n\
    14 15 0 32 33 0;150;0 2 14 18 32 50;0 3\n\
    56 59 1;120;0 2 56 66;3 4\n\
    16 61 0 78 79 0 97 137 0;150;0 2 16 66 78 82 97 146;0 8\n\
    37 103 0;120;0 2 37 114;1 7\n\
    14 15 0 31 71 39 73 89 0;90;0 2 14 18 31 90;0 5\n\
    58 61 1;300;0 2 58 66;3 4\n\
    56 58 0;300;0 2 56 66;3 4\n\
    7 88 80;90;0 2 7 90;0 5\n\
    25 27 1 28 29 0 47 63 0;150;0 2 25 34 47 66;1 4\n\
    50 52 1 69 85 1 101 117 0 118 158 1;300;0 2 50 66 69 98 101 162;2 10\n\
    50 52 0 53 83 1;150;0 2 50 98;2 6\n\
    6 22 8 40 41 0 59 75 8;120;0 2 6 34 40 50 59 82;0 5\n\
    48 51 1 53 56 0 74 76 0;90;0 2 48 66 74 82;2 5\n\
    58 60 1 75 115 1;150;0 2 58 66 75 130;3 8\n\
    2 4 1 21 23 0 41 85 0;90;0 18 21 34 41 90;0 5\n\
    38 40 1 42 139 96 140 143 1;150;0 2 38 146;1 8\n\
    6 22 1;300;0 2 6 34;0 2\n\
    39 55 1 73 113 20;120;0 2 39 66 73 120;1 7\n\
    3 4 0 6 22 0 55 57 1;300;0 2 3 34 55 66;0 4\n\
    34 35 0 53 69 0;150;0 2 34 50 53 82;1 5\n\
    55 57 1 74 75 0 80 120 20;150;0 2 55 66 74 130;2 8\n\
    33 36 0 51 52 0;120;0 2 33 50 51 66;1 4\n\
    3629 5132 0;5275;0 2 3629 5138;226 321\n\
    25 28 2;120;0 2 25 34;1 2\n\
    10 50 0 55 71 15;150;0 2 10 82;0 5\n\
    11 103 0;120;0 2 11 114;0 7\n\
    15 16 0 33 34 0 67 69 0;90;0 2 15 18 33 50 67 82;0 5\n\
    30 33 2 48 49 0;150;0 2 30 66;1 4\n\
    4 44 0 61 174 0 179 181 1;300;0 2 4 50 61 178 179 194;0 12\n\
    41 44 1 59 124 64;300;0 2 41 50 59 130;2 8\n\
    47 87 39;300;0 2 47 98;2 6\n\
    0 1 0 17 57 0 75 76 0;120;0 66 75 82;0 5\n\
    0 1 0 34 74 20 91 92 0 125 234 54;300;0 18 34 82 91 98 125 242;0 6 7 15"
}

/// Forty lists of cells.
pub(crate) fn cell_rows() -> &'static str {
    "\
    0b9c0091f26314--0506f7f8097a--0b0c0d0e0f00ff0001f203f4050607f8090a0b6c0d0e0f00c1;146 - 3 4 3949 - 16 24\n\
    --01f2f3044516f708090a0b0cfd1e0ff0f1f203041506077809fa7b0c--f102030405060708090a;4082 - 11 18 11 -\n\
    ff0001020304b5f607f8095a0001020304--005142030400f1520304--f0f100018203040506f7f8;\
        4098 - 9 3 4087 - 3 14 77 - 3 20 157 - 3 25 3853 - 7 33\n\
    0e0f000102f3040586070819fa0b0cfdfe9f00019203b43506e70809faeb0c0d0e0ff001f203f4f5;4098 - 36 4\n\
    05f6f70809fa0b7c0d0eff00000102632495061708090a0b0cfd0e0f00010263040001f2f3f4f5f6;4098 - 19 14 4077 - 5 35\n\
    016283f4057001f203f405a60708095a0b6c0dfe0f0001024304f5966708091afb0c3d0effa001f2;1794 - 33 7\n\
    0efff00102030400a1f20304--006102--03f4f5--00015203544506e7f0d1--f203040586f75839;\
        3842 - 3 4 413 - 3 9 4029 - 1 15 3999 - 6 23 4051 -\n\
    f001020304c5060708090a0b0c0d0e0f400102f3f405d6f7f8f90a090a0b--f102f3f405060708a0;3842 - 25 2 13 -\n\
    0728f90a0b7c0d0e0ff0010243f405f6f70809fa0b0c5dfe--015273f405f6d7f8f9aa0b0c0dde2f;3842 - 13 11 16 -\n\
    0405060798092a0b0c0dfeff806102c30405f60708790a--00a10203042ff0f1--0203000102f304;\
        2146 - 9 14 2103 - 3 26 3933 - 3 37\n\
    9708090a0b0c0d0e0ff0010203f40506070889fa0b0c1dfe0f0001f2f3f475f607--08b9fa0bcc0d;3842 - 22 11 7 -\n\
    ce9001f26304b5c60708f9000102--090a0b0cfdc1f20001c2330475060728f90a0b0c0d0001f223;\
        2306 - 8 3 1784 - 1 13 4095 - 12 24 4084 - 2 38\n\
    0f0051--f2f3f415060708892a0b0c0d0e0fc0f1b20304f50607f8090a0bac0d--009142f3f4f5f6;3314 - 12 20 916 - 5 35\n\
    05f6f7--08090a----e02100010203b4a5f60708f9fa7bfc2dce0f0001020344f50607e8590a3b0c;4098 - 27 13\n\
    fbac0d0ff0f1f2f304f506f79809fafbdc0d0eff30f102008102c3f405f63748b93a0b0c0d0eff00;4082 - 17 6 127 - 15 25\n\
    0bfc0d0e0f0001f20304f5060708093a8bcc4dfe0ff021f203f4f5a6f70809fabbfc1dce0f30f102;4098 - 33 7\n\
    0304f50677--000102030405060708f9fa0bfc0dfe1f0001f293bf00010203f40506f708099a0001;4098 - 18 8 4078 - 9 29 4087 -\n\
    fccd0ef0010203b40506f7f8090a0b1cdd0e0ff00142730405f60708c90a0b--8c9d0eff0001f203;3842 - 26 5 230 - 2 38\n\
    --d3f4f506f758091a10f102d3f4f5f607f8390a0bfcfd0eef000102035405f607f809fafb0cfdfe;498 - 29 11\n\
    0001f2030405066708f9eafb0c2dde0f0001f2--0f0001f2f364f50677f8f9aafbcc0d0e0f0071d2;2 - 17 2 4079 - 17 23\n\
    00f1--f20304f5060708f90a0b0cfd0e9f00010203f4f50627a8f90a6b0c0daeff000102030475d6;4098 - 21 19\n\
    fa0001920304a506b7f8190a0bf0f10203f4050607f809fa2bfc0d0e0f00f1020394c59667f8298a;4098 - 10 3 4070 - 25 15\n\
    0001026364f5f60708f9fafb4c0dfeef20115203--00d1f2--a0f1fecf000162030405d63708090a;2 - 18 2 190 - 1 23 3887 - 9 31\n\
    fc0dfeffa00102030405f6b708d93a0bac9d1efff0f1023394050607a8f98a0bfcfdfecff0017203;2562 - 34 6\n\
    f90adb4c0d0eff0001f203f4f58607f8090afbfcfd0eff00e1f2f3040506f73800010203f40506f7;4098 - 23 9 4073 - 6 34\n\
    f50697a8--f90a7b0cfd0ecf00f1f20304c506f708090afb0c0d0eff00b1026304f54607c809faab;242 - 26 14\n\
    0001f2d304b5f6b70829fa7b0cfdfe0f00f1f203f40506f7080001e20304f5060708f90a0bfc1dfe;2 - 23 2 4073 - 13 27\n\
    f90a0bfc0d0e0f00311203c4--0ff0f10203042506f70809ea------0102f3040506f7f0f1020300;\
        50 - 3 9 4029 - 9 16 4087 - 2 37 1 -\n\
    05060708092001f200e10283c4f506--f0f102830405167708f90a0b4cadfefff00192--0304a5--;\
        514 - 1 7 3807 - 5 10 3851 - 17 18 5 -\n\
    0e0f50f18203f4f500f1f203b4f50607f809fa0b0c0dfeff400102f304--f5f607f8090a0bfcfd0e;1522 - 4 4 2812 - 19 10 11 -\n\
    0afbfc--0dfe1f--0091024350f19203f47536f701f203f42506f7a0f1d00102c35405f6b00102f3;\
        146 - 2 10 1374 - 6 14 1802 - 5 31 3579 - 2 38\n\
    f90a0b3c0dfeffe0f1f203340586f7f8f90a0b0c9d0e0f0000010253040506074809fa0b0ccd0e0f;3826 - 15 9 257 - 14 26\n\
    08f001f2f3f4050627a8f9ba1b0c0dfe3f40f102f3f405f607d8f96afb0ccdaefff001a2830405f6;3842 - 37 3\n\
    f001f2f3d4f5d60728------0900a1f203c400f1f2030405060708f9fa0bfccdae0f00810203f4b5;3842 - 7 2 409 - 3 15 77 - 20 20\n\
    094aeb0c0dfe0f00000102f3f4f506f7f8098a6bfc0d0e0f0001020304f50607e8098a6b8cfdee7f;4098 - 30 10\n\
    00f1f2f35405f6070809facb0c0dfe0ff0f1e2034405d6--f001d9fafb0c0dce0ff0d041f2031405;242 - 21 2 7227 - 4 36\n\
    00f1020304f506f728490a0b--f0f102a3f4f576b7f809f03102030405f607c8f90aab3cfd0edf00;\
        242 - 10 2 3830 - 8 15 3896 - 15 25\n\
    0dfe6f00f1320304f50607--0001f2f3040506f728196a0b0cfd0e0f00010203045566f7f8092a0b;242 - 6 5 3850 - 26 14\n\
    034465760728090a0b0c--0d0eff20019273f43506f7--f001f20304f506f708f9fa0b0c0d0e0fa0;514 - 6 16 3322 - 15 25\n\
    a7f809fa0b0c0d0effd00102030405060708f96af0f1020304f5f6070809fa0b0cfd0eaff0810203;3330 - 9 11 743 - 18 22"
}
