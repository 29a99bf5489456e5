//! What help prints behind the options.

/// The version that `--version` prints: that of the library for other languages.
pub(crate) const VERSION: &str = "0.2.0";

/// What every program shares: why it refuses, its status, and how large its tree has to be.
pub(crate) const PROGRAM: &str =
    "'bwtree help script', help weave, help draw, help film and help race list the lines that each program reads, and what they print.

A program that refuses a line prints 'refused line N: C' and ends; a refusal of no line is 'refused: C'. C is one of these numbers
(film has a line of its own for too many steps):
  1   a key or a value has more than 64 bytes
  2   an option is outside its range: printed to standard error, and the status is 2
  4   there is no such actor
  5   the actor has an operation that is not done
  6   the actor has no operation
  7   a growth of memory was refused
  10  race has no memory for the list of the pairs
  11  the line is outside the format
  12  there is no memory for the tree
  14  race has no memory or no thread to run the jobs
  15  a result of race is missing, doubled or of no job

The status is 0 where the input was read to its end, all was written and nothing was refused; 2 where the command line was refused; else 1.

A tree never grows: if it is too small, writers reply 'full' for good. --keys K opens one for K different keys, ever. With --large its rows are only as wide as
their records need, and several actors have room for 16384 updates while one is stopped.
In place of --keys, for K different keys, ever, and A actors or seats (a script has one),
with divisions that round down, and each result rounded up to a multiple of 64:
  leaves = K / 8 + 1               pages = leaves + leaves / 6 + 1
  --pids = pages + 1 + 11 A        --rows = 9 pids + 120 A
or, with --large:
  --pids = pages + pages / 16 + 1 + 22 A        --rows = 3 pids + 240 A
So 1,000 keys of a race with 4 seats need --pids 256 --rows 2816, and 100,000 need --large --pids 15616 --rows 47808.";

/// The lines of a script.
pub(crate) const SCRIPT: &str =
    "A line is a command, or list. Each reply is preceded by '0 ', except list's.
  get K          value V; none where the key has no value
  insert K V     inserted; exists V where the key has a value, which it keeps
  upsert K V     set where the key had no value; replaced V, with the value that it had
  delete K       deleted V, with the value that it had; absent where it had none
  delete_if K E  deletes the key where it has the value E: deleted E; differs V; absent
  swap K E V     gives the key the value V where it has E: swapped; differs V; absent
  add K N        adds N to the number that a value of eight bytes spells: set; replaced V; differs V where it has not eight bytes
  page K         the pairs of one leaf, ascending from K: page N k1 v1 .. kN vN next K2, or end in place of next K2
  back K         the pairs of one leaf, descending from K: back N kN vN .. k1 v1 next K2, or end in place of next K2
  tidy K         consolidates, splits or removes that leaf if it is due: tidied
  list           pairs N, and N lines K V, ascending
The commands that write may reply full: there is no free row or page identifier, and no key was changed.
A key or a value is a word of printable ASCII that does not begin with =, or = and two hexadecimal digits for each of at most 64 bytes.
Example: the lines 'insert a 1' and 'get a' print '0 inserted' and '0 value 1'";

/// The lines of a weave.
pub(crate) const WEAVE: &str =
    "A line is one of these. CMD is a command, with the replies that 'bwtree help script' lists, here behind the actor's number.
  begin A CMD   actor A, numbered from 0, begins the command; prints nothing
  turn A N      A takes N steps, 1 to 100000, or fewer if it is done; prints its reply if it is done
  until A LINK  A takes steps until its compare-and-swap with this link succeeds, or it is done; prints its reply if it is done
  finish A      A takes steps until it is done; prints its reply, or 'A unfinished' after 100000 steps
  mix SEED N    N times an actor is drawn, and takes a step if it has an operation; prints each reply
  list          prints pairs N, and N lines K V, ascending
LINK is one of put delete base split term root hold remove merge unterm clear.
Example: the lines 'begin 0 insert a 1' and 'finish 0' print '0 inserted'";

/// The lines of a picture.
pub(crate) const DRAW: &str = "'bwtree help weave' lists the lines. Their replies are not printed.
Example: the lines 'begin 0 insert a 1' and 'finish 0' print a picture of one page with one item";

/// The lines of a film.
pub(crate) const FILM: &str =
    "'bwtree help weave' lists the lines. Their replies are not printed. A film has a frame for each step, 2000 at most.
In a browser, the left and right arrow keys show the frame before and the next one, home and end the first and the last, and space plays; #12 behind the
page's address is frame 12.
Example: the lines 'begin 0 insert a 1' and 'finish 0' print a page with a frame for each step of the insert";

/// The lines of a race.
pub(crate) const RACE: &str =
    "A line is J CMD: a command of job J, 0 to 4095; 'bwtree help script' lists the commands and their replies, here behind the job's number.
A job's commands run in the order of their lines. All replies are printed at the end, by job, and then the pairs of the tree as list prints them.
Example: the lines '0 insert a 1' and '1 get b' print '0 inserted', '1 none', 'pairs 1' and 'a 1'";
