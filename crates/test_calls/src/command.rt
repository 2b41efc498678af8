// The numbers of the commands, as the input has them and the lines print them; every number is one.

// Words a up to b of the buffer become c.
pub const FILL_WORDS: u32 = 0;

// Words a up to b of the list become c.
pub const FILL_LIST: u32 = 1;

// Opens with A = a, B = b and the first c words of the list.
pub const OPEN: u32 = 2;

// Plays the word a.
pub const PLAY: u32 = 3;

// The leafset of node a.
pub const LEAFSET: u32 = 4;

// Whether nodes a and b are connected.
pub const CONNECTED: u32 = 5;

// The number of groups.
pub const GROUPS: u32 = 6;

// Reads the event word a.
pub const READ: u32 = 7;

// Writes the event of kind a with the parts b and c.
pub const WRITE: u32 = 8;

// Replays: opens as above, and plays the d words of the list after the keys.
pub const REPLAY: u32 = 9;

// Plays words a up to b of the list by one call, which is lent the first c places.
pub const PLAY_ALL: u32 = 10;

// The route from node a towards key b, which is lent the first c places.
pub const ROUTE: u32 = 11;

// Words a up to b of the second buffer become c.
pub const FILL_SECOND: u32 = 13;

// The conductor's screen.
pub const CONDUCTOR: u32 = 14;

// The technician's screen, over the stamps and spares as they are.
pub const TECHNICIAN: u32 = 15;

// The messages as a part of the words.
pub const MESSAGES: u32 = 16;

// Every stamp of the screens becomes a, every spare b.
pub const FILL_SCREEN: u32 = 17;

// The second buffer becomes the buffer.
pub const KEEP: u32 = 18;

// The buffer becomes the third one.
pub const TAKE: u32 = 19;

// Words a up to b of the third buffer become c.
pub const FILL_THIRD: u32 = 20;

// Joins the buffer and the first a words of the second one, in the first b words of the third.
pub const JOIN: u32 = 21;

// Joins the buffer and itself, in the first b words of the third.
pub const JOIN_ITSELF: u32 = 22;

// The reach from node a to the owner of key b.
pub const REACH: u32 = 23;

// Turns the buffer short, in the first a words of the third one.
pub const SHORTEN: u32 = 24;

// Makes the first a words of the third buffer long, in the buffer.
pub const LENGTHEN: u32 = 25;

// Every other number previews the word a, with the first b words of the second buffer.
