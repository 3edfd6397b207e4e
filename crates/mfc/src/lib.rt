// The C interface: numbers and byte slices in and out, and no logic of its own. tools/header makes host/include/mfc.h of these files;
// its first comment is the one that follows.
#![tactic(auto)]

// Frames, requests and replies of SFC6 mass flow controllers on SHDLC, words and commands of two sensor families on I2C, scaled
// readings, the handover board, the shift log and its replay. No function keeps state or a pointer, or allocates. Each takes any numbers
// and any bytes.
//
// Compile with -Wconversion: C cuts a number that is too wide for its parameter, and address 256 would be sent to 0.
//
// A slice is a pointer and a length. A pointer may be NULL only with length 0, and the buffers lent to one call do not overlap. The
// length of a slice of uint16_t is in words, that of a slice of mfc_entry in entries.
//
// A result is a number, or a struct whose first field is the number of a refusal, 0 for none. Every other field is 0 where nothing is
// said of it. A refusal leaves all lent buffers as they were, save that a receiver's record goes on past an item that is refused with 3
// to 9. A writer that succeeds changes only the bytes of its answer.
//
// A receiver's record is the first MFC_RECORD_SIZE bytes of a slice that the caller keeps from call to call: kind (0 requests, 1
// replies), mode (0 outside a frame, 1 in one, 2 after a 7D, 3 and 4 the refusal found), length (high byte, low byte), count of noise
// bytes (four bytes, the highest first), and 260 bytes of store. Bytes past them are not touched.
//
// The value of a request or a reply is a number, a float by its bits. Beside a request or a reply that carries none it is not looked at.
// In a reply FFFFFFFF hex is an invalid reading, 7F800000 plus infinity and FF800000 minus infinity.
//
// A handover board is a table of MFC_BOARD_PLACES entries that the caller keeps from call to call, all of them zeros at the start. It has
// an entry for each valve and each temporary calibration that was opened and is not yet closed, with its polls left.
//
// A shift log is a file of records of what crossed the wire, at most MFC_LOG_ROOM bytes: each is its body, its kind and the body's length
// (high byte, low byte); the last eight bytes are the number of records and the bytes of all of them, each highest byte first.
pub mod answers;
pub mod boards;
pub mod logs;
pub mod readings;
pub mod receivers;
pub mod reply;
pub mod requests;
pub mod sizes;
pub mod words;
