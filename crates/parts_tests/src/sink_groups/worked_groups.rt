//! Worked groups, from a model that was written apart from this crate. They stand in a text of rows behind a
//! call, so that no proof sees them.

use member_cells::Ctrl;

/// What the packets of the lines say from a packet on: the change bit, ACT, and of each line its control word and SQ.
pub(crate) type Said = (u32, bool, u8, [(Ctrl, u8); 3]);

/// What is said of a line that does not matter, from no packet on.
const NONE: Said = (u32::MAX, false, 0, [(Ctrl::Idle, 255); 3]);

/// A group.
#[derive(Clone, Copy)]
pub(crate) struct Case {
    /// How many payload octets a container has.
    pub(crate) size: u16,
    /// How many rows there are.
    pub(crate) rows: u32,
    /// How many lines there are.
    pub(crate) lines: u8,
    /// Of each line its window: the first container that is damaged, the first that isn't, and how many of
    /// the last vanish.
    pub(crate) windows: [[u32; 3]; 3],
    /// What the packets say.
    pub(crate) packets: [Said; 5],
    /// The stream: a number of idle frames, or a client frame, as its number and how many octets it has.
    pub(crate) pieces: &'static str,
    /// The numbers of the frames that come through.
    pub(crate) frames: &'static str,
    /// The member statuses, in decimal, and the acknowledgement of the return packets from a packet on.
    pub(crate) backs: &'static str,
}

/// A number that a row says.
pub(crate) fn number(word: &str) -> u32 {
    word.parse::<u32>().unwrap_or(0)
}

/// A window of a line, or none.
fn window(text: &str) -> [u32; 3] {
    let mut window = [0; 3];
    for (place, word) in window.iter_mut().zip(text.split(' ')) {
        *place = number(word);
    }
    window
}

/// What is said of a line: `a` is ADD, `n` is NORM, `e` is EOS, and `i` is IDLE.
fn line_said(text: &str) -> (Ctrl, u8) {
    let (word, sq) = text.split_once(':').unwrap_or((text, ""));
    let ctrl = if word == "a" {
        Ctrl::Add
    } else if word == "n" {
        Ctrl::Norm
    } else if word == "e" {
        Ctrl::Eos
    } else {
        Ctrl::Idle
    };
    (ctrl, sq.parse::<u8>().unwrap_or(255))
}

/// What packets say.
fn said(text: &str) -> Said {
    let mut words = text.split(',');
    let first = number(words.next().unwrap_or(""));
    let chg = words.next() == Some("+");
    let act = words.next().unwrap_or("").parse::<u8>().unwrap_or(0);
    let mut lines = [(Ctrl::Idle, 255); 3];
    for (line, word) in lines.iter_mut().zip(words) {
        *line = line_said(word);
    }
    (first, chg, act, lines)
}

/// The group of a row.
pub(crate) fn case_of(row: &'static str) -> Case {
    let mut fields = row.split(';');
    let size = fields.next().unwrap_or("").parse::<u16>().unwrap_or(0);
    let rows = number(fields.next().unwrap_or(""));
    let mut lines = 0u8;
    let mut windows = [[0; 3]; 3];
    for (place, text) in windows
        .iter_mut()
        .zip(fields.next().unwrap_or("").split('|'))
    {
        *place = window(text);
        lines = lines.saturating_add(1);
    }
    let mut packets = [NONE; 5];
    for (place, text) in packets
        .iter_mut()
        .zip(fields.next().unwrap_or("").split(' '))
    {
        *place = said(text);
    }
    Case {
        size,
        rows,
        lines,
        windows,
        packets,
        pieces: fields.next().unwrap_or(""),
        frames: fields.next().unwrap_or(""),
        backs: fields.next().unwrap_or(""),
    }
}

/// Six groups. In the first one, after a long failure, frame 1 begins before the confirmed place, and frame 2
/// settles the descrambler. In the second one a container is damaged: frame 3 is cut off, and rows are whole
/// for a while before the packet lacks. In the third one one of two lines fails with a slip: its packets
/// lack, and then it carries no payload for a time. In the fourth one three lines stand in another order than
/// their numbers, and then two. In the fifth one both lines fail, and no packet can be read. In the sixth one
/// a line is taken out, and no line carries payload until another is in.
pub(crate) fn case_rows() -> &'static str {
    "\
    2340;200;100 140 39;0,+,0,a:0 4,+,1,e:0;\
    2 0:64 46780 1:64 2:64 3:64 18666;\
    0 3;0,127,+ 1,255,+\n\
    756;160;111 112 0;0,+,0,a:0 1,+,1,e:0;\
    12285 0:900 151 1:902 151 2:904 150 3:906 149 4:908 149 5:910 149 6:912 148 7:914 147 8:916 147 9:918 147 \
    10:920 146 11:922 145 12:924 145 13:926 145 14:928 144 15:930 143 16:932 143 17:934 143 18:936 142 19:938 2976;\
    0 1 2 6 17 18 19;0,127,+ 1,255,+\n\
    756;680;|408 425 7;0,+,0,a:0,i:255 4,-,1,e:0,a:1 20,-,2,n:0,e:1;\
    69552 0:2000 1010 1:2001 1010 2:2002 1010 3:2003 1009 4:2004 1009 5:2005 1009 6:2006 1008 7:2007 1008 8:2008 \
    1008 9:2009 1008 10:2010 1008 11:2011 1007 12:2012 1007 13:2013 1007 14:2014 1006 15:2015 1006 16:2016 1006 \
    17:2017 1006 18:2018 1006 19:2019 1005 20:2020 1005 21:2021 73581;\
    0 1 16 17 18 19 20 21;0,127,+ 1,255,+ 4,255,- 16,63,- 17,255,- 32,63,- 33,255,-\n\
    756;760;||;0,+,0,i:255,i:255,a:0 1,-,1,a:1,i:255,e:0 2,+,1,a:1,a:2,e:0 17,+,3,n:1,e:2,n:0 42,-,2,i:255,e:1,n:0;\
    186732 0:3000 7186 1:3001 7186 2:3002 7186 3:3003 7185 4:3004 7185 5:3005 7185 6:3006 7184 7:3007 7184 8:3008 \
    7184 9:3009 7184 10:3010 7184 11:3011 4915 12:3012 4537 13:3013 4537 14:3014 8316;\
    0 1 2 3 4 5 6 7 8 9 10 11 12 13 14;0,127,+ 1,255,- 2,255,+ 16,31,+ 17,255,+ 32,31,+ 33,255,+ 42,255,-\n\
    756;560;400 440 20|405 436 0;0,+,0,a:0,i:255 5,-,1,e:0,a:1 21,-,2,n:0,e:1;\
    59724 0:600 226 1:617 222 2:634 218 3:651 213 4:668 209 5:685 205 6:702 200 7:719 196 8:736 192 9:753 188 \
    10:770 184 11:787 179 12:804 175 13:821 171 14:838 166 15:855 35694 16:100 351 17:101 351 18:102 351 19:103 \
    350 20:104 350 21:105 20762;\
    0 1 2 3 4 5 6 7 8 9 17 18 19 20 21;0,127,+ 1,255,+ 5,255,- 16,63,- 17,255,- 32,63,- 33,255,-\n\
    756;340;|;0,+,0,a:0,i:255 1,+,1,e:0,i:255 6,-,0,i:255,i:255 10,+,0,i:255,a:0 17,+,1,i:255,e:0;\
    9450 0:400 3678 1:401 1788 2:402 3:403 4:404 5:405 6:406 7:407 8:408 9:409 10:410 1715 11:411 5565;\
    0 1 2 3 4 5 6 7 8 9 10 11;0,127,+ 1,255,+ 6,255,- 10,255,+ 16,127,+ 17,255,+"
}
