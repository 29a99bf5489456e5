//! The page that moves: what stands before the frames, around each, and behind them. Its script is a constant, of which nothing is proved.
ghost use Rattle.std.specs.Prelude.{◌++◌, codes, decimal};
ghost use Rattle.byte_streams.specs.Output.{Prints};
ghost use Rattle.tree_picture.specs.Document.{escape};
ghost use Rattle.filming.specs.Pages.{buttons_text, guide_text, head_text, reason_line, style_text, tail_text};

use bw_shell::show_number;
use byte_streams::Output;
use drawing::show_escaped;

/// How the page looks.
fn show_looks<O: Output>(out: &mut O)
    ensures { Prints (O.state out.old) (O.state out.new) style_text }
{
    out.show(
        b"<!DOCTYPE html>\n<html lang='en'>\n<head>\n<meta charset='utf-8'>\n<meta name='viewport' content='width=device-width'>\n<title>A Bw-tree, step by step</title>\n<style>\n",
    );
    out.show(
        b"body{font:16px system-ui,sans-serif;margin:1rem auto;max-width:1400px;padding:0 1rem;color:#1b1f24;background:#fff}\n",
    );
    out.show(
        b"h1{font-size:1.3rem;margin:.3rem 0}h2{font-size:1.1rem;margin:.6rem 0 .2rem}h3{font-size:1rem;margin:.6rem 0 .2rem}p,ul{margin:.3rem 0;max-width:75rem}\n",
    );
    out.show(
        b"nav{position:sticky;top:0;background:inherit;padding:.4rem 0;display:flex;flex-wrap:wrap;gap:.5rem;align-items:center}button{font:inherit;padding:.2rem .7rem}\n",
    );
    out.show(
        b"section{scroll-margin-top:99rem}svg{max-width:100%;height:auto}pre,ol{margin:0;columns:10rem}.changed{font-weight:bold}.why{color:#57606a}.told{position:absolute;left:-99rem}\n",
    );
    out.show(
        b"@media (prefers-color-scheme:dark){body{color:#e6edf3;background:#0d1117}.why{color:#9198a1}}\n",
    );
}

/// What is to be seen in a frame.
fn show_guide<O: Output>(out: &mut O)
    ensures { Prints (O.state out.old) (O.state out.new) guide_text }
{
    out.show(b"</style>\n</head>\n<body>\n<h1>A Bw-tree, step by step</h1>\n");
    out.show(
        b"<p>Several actors use one ordered map, and none ever locks a page. A record that is linked never changes, so who reads one may sleep there,\n",
    );
    out.show(
        b"and the others go on. To change a page, an actor writes a new record where nobody else looks, and links it by one compare-and-swap of the\n",
    );
    out.show(
        b"page's slot: of two who try at once one wins, and the other begins anew. A row is used anew once nobody can still reach its old record.\n",
    );
    out.show(
        b"Each frame is one atomic step of one actor: why it needs no lock, the tree as it is after it, and the map.</p>\n",
    );
    out.show(b"<details><summary>How to read a frame</summary>\n<ul>\n");
    out.show(
        b"<li>A page, PID 1 and so on, is a chain of records, the newest on top, a base with its items at the end. Each record lies in a row of\n",
    );
    out.show(b"memory.</li>\n");
    out.show(
        b"<li>The mapping table at the left has a slot for each page: the row of its newest record. Slot 0 has the root's PID.</li>\n",
    );
    out.show(
        b"<li>A record that is linked never changes. To change a page, an actor places a new record, whose next one is the newest that it has\n",
    );
    out.show(b"read, in a row of its own. A base has no next one.</li>\n");
    out.show(
        b"<li>Then it exchanges the slot: one compare-and-swap from the row that it has read to the new one. If another actor was faster, the slot\n",
    );
    out.show(
        b"has another row by then. The exchange is lost, nothing has changed, and the actor begins anew at the root. So it does after most that it wins\n",
    );
    out.show(b"before its own update is linked. This one word takes the place of a lock.</li>\n");
    out.show(
        b"<li>The newest record that names a key decides it. What newer records took away is grey and struck through.</li>\n",
    );
    out.show(
        b"<li>Thick edges: red is what this step changed, black what it read, violet a row that an actor reads next. Under a page stands each\n",
    );
    out.show(b"actor whose operation read its slot last.</li>\n");
    out.show(
        b"<li>Below the pages lies what is beside the tree: a record that is placed and not linked yet; records that were taken out of the tree\n",
    );
    out.show(
        b"while an actor reads there, unchanged and in their rows as long as it does; and a page on no level, since it was merged or nothing leads\n",
    );
    out.show(b"to it yet.</li>\n");
    out.show(
        b"<li>Consolidation: one base replaces a long chain. Split: the upper items of a full page go to a new page, to which a side link leads. A\n",
    );
    out.show(b"term, which is a key and a child, is then posted in the page above.</li>\n");
    out.show(
        b"<li>Removal of a small page: its term is held, so that its left page stays; the page is removed; that left page takes its items by a merge; the\n",
    );
    out.show(b"term is taken out; and the slot is cleared.</li>\n");
    out.show(
        b"<li>Spares are rows and PIDs that an actor took and has not linked. Errands are the keys of terms that it has still to post in pages\n",
    );
    out.show(b"above.</li>\n");
    out.show(
        b"<li>Epochs: an actor announces the epoch in which it enters, and leaves at its end. What it took out of the tree waits in its limbo, the\n",
    );
    out.show(
        b"cells beside it: with no epoch at first; then with the epoch that it read afterwards (they are stamped), as 'row 9, epoch 1'. Once each other actor was seen outside\n",
    );
    out.show(
        b"or in a later epoch since then, the cell goes, and its actor frees the row next. So no row is used anew while somebody inside can still reach its\n",
    );
    out.show(
        b"old record, no exchange takes one for the other, and no operation waits for a reader.</li>\n",
    );
    out.show(
        b"<li>The log has all updates in their order. Each took effect at its exchange; an operation that changes nothing at one of its own steps,\n",
    );
    out.show(b"which is known when its reply comes.</li>\n");
    out.show(
        b"<li>Commands: page and back read pairs from a key on, upward and downward; tidy makes what is due on the way to a key.</li>\n",
    );
    out.show(
        b"<li>Keys: left and right, home and end; space plays; n goes to the next exchange, p to the one before. #12 behind the address is frame\n",
    );
    out.show(b"12.</li>\n");
    out.show(b"</ul>\n</details>\n");
}

/// The buttons.
fn show_buttons<O: Output>(out: &mut O)
    ensures { Prints (O.state out.old) (O.state out.new) buttons_text }
{
    out.show(
        b"<nav aria-label='Frames'><button id='first'>Home</button><button id='back'>Back</button><button id='play'>Play</button><button id='forward'>Forward</button>",
    );
    out.show(
        b"<button id='last'>End</button><button id='before'>Exchange before</button><button id='next'>Next exchange</button>",
    );
    out.show(
        b"<span id='at'></span><span id='told' class='told' aria-live='polite'></span></nav>\n<main>\n",
    );
}

/// The beginning of the page: how it looks, what is to be seen, and its buttons.
pub(crate) fn show_head<O: Output>(out: &mut O)
    ensures { Prints (O.state out.old) (O.state out.new) head_text }
{
    show_looks(out);
    show_guide(out);
    show_buttons(out);
}

/// The end of the page: the script that moves from frame to frame, by the part of the address behind '#'.
pub(crate) fn show_tail<O: Output>(out: &mut O)
    ensures { Prints (O.state out.old) (O.state out.new) tail_text }
{
    out.show(b"</main>\n<script>\n");
    out.show(
        b"const frames=[...document.querySelectorAll('section')],play=document.getElementById('play'),last=frames.length-1;let timer=0;\n",
    );
    out.show(
        b"const at=()=>Math.max(frames.findIndex(frame=>'#'+frame.id===location.hash),0),step=n=>frames[n].querySelector('h2').textContent;\n",
    );
    out.show(
        b"function show(){const here=at();frames.forEach((frame,i)=>frame.hidden=i!==here);document.getElementById('at').textContent=last<0?'no frames':here+1+' of '+frames.length;\n",
    );
    out.show(
        b"document.getElementById('told').textContent=last<0?'':step(here);if(here>=last)stop()}\n",
    );
    out.show(b"function go(n){if(last>=0)location.hash=frames[Math.min(Math.max(n,0),last)].id}\n");
    out.show(
        b"function jump(by){let n=at()+by;while(n>0&&n<last&&!step(n).includes(': exchange slot '))n+=by;go(n)}\n",
    );
    out.show(b"function stop(){clearInterval(timer);timer=0;play.textContent='Play'}\n");
    out.show(
        b"function start(){if(at()>=last)return;play.textContent='Stop';timer=setInterval(()=>go(at()+1),1000)}\n",
    );
    out.show(
        b"const press={first:()=>go(0),back:()=>go(at()-1),play:()=>timer?stop():start(),forward:()=>go(at()+1),last:()=>go(last),before:()=>jump(-1),next:()=>jump(1)};\n",
    );
    out.show(b"for(const name in press)document.getElementById(name).onclick=press[name];\n");
    out.show(
        b"const keys={Home:'first',ArrowLeft:'back',' ':'play',ArrowRight:'forward',End:'last',p:'before',n:'next'};\n",
    );
    out.show(
        b"onkeydown=event=>{if(keys[event.key]&&!event.ctrlKey&&!event.altKey&&!event.metaKey){event.preventDefault();press[keys[event.key]]()}};\n",
    );
    out.show(b"onhashchange=show;show();\n");
    out.show(b"</script>\n</body>\n</html>\n");
}

/// What stands before a frame's picture: its number, and the words for its step and for what that found.
pub(crate) fn show_frame_begin<O: Output>(out: &mut O, number: u64, words: &[u8], found: &[u8])
    ensures { Prints (O.state out.old) (O.state out.new)
        (codes "<section id=\"" ++ decimal number ++ codes "\">\n<h2>" ++ decimal number ++ codes ": " ++ escape words.now ++ escape found.now
        ++ codes "</h2>\n") }
{
    out.show(b"<section id=\"");
    show_number(out, number);
    out.show(b"\">\n<h2>");
    show_number(out, number);
    out.show(b": ");
    show_escaped(out, words);
    show_escaped(out, found);
    out.show(b"</h2>\n");
}

/// Why the step of a frame needs no lock.
pub(crate) fn show_reason<O: Output>(out: &mut O, reason: &[u8])
    ensures { Prints (O.state out.old) (O.state out.new) (reason_line reason.now) }
{
    out.show(b"<p class='why'>No lock: ");
    out.show(reason);
    out.show(b"</p>\n");
}

/// What stands behind a frame's picture.
pub(crate) fn show_frame_end<O: Output>(out: &mut O)
    ensures { Prints (O.state out.old) (O.state out.new) (codes "</section>\n") }
{
    out.show(b"</section>\n");
}

/// The beginning of the frame of a refusal.
pub(crate) fn show_refusal_begin<O: Output>(out: &mut O)
    ensures { Prints (O.state out.old) (O.state out.new) (codes "<section id=\"refused\">\n<h2>") }
{
    out.show(b"<section id=\"refused\">\n<h2>");
}

/// Its end.
pub(crate) fn show_refusal_end<O: Output>(out: &mut O)
    ensures { Prints (O.state out.old) (O.state out.new) (codes "</h2>\n</section>\n") }
{
    out.show(b"</h2>\n</section>\n");
}
