/// The commands, by what they do. The spellings of a command stand beside it, with what may be left out in brackets.
#[derive(Clone, Copy, Debug, PartialEq, Eq)]
pub enum Command {
    /// `a[lias]`, `g[roup]`
    Alias,
    /// `alt[ernates]`
    Alternates,
    /// `answered`
    Answered,
    /// `call`
    Call,
    /// `c[opy]`
    Copy,
    /// `C[opy]`
    CopyByAuthor,
    /// `d[elete]`
    Delete,
    /// `dp`, `dt`
    DeleteAndPrint,
    /// `define`
    Define,
    /// `defines`
    Defines,
    /// `di[scard]`, `ig[nore]`
    Ignore,
    /// `draft`
    Draft,
    /// `ec[ho]`
    Echo,
    /// `e[dit]`
    Edit,
    /// `if`, `el[se]`, `en[dif]`
    Condition,
    /// `ex[it]`, `x[it]`
    Exit,
    /// `fi[le]`, `fold[er]`
    File,
    /// `flag`
    Flag,
    /// `folders`
    Folders,
    /// `fo[llowup]`
    Followup,
    /// `F[ollowup]`
    FollowupAuthors,
    /// `f[rom]`
    From,
    /// `h[eaders]`
    Headers,
    /// `hel[p]`, `?`, `l[ist]`
    Help,
    /// `ho[ld]`, `pre[serve]`
    Hold,
    /// `m[ail]`
    Mail,
    /// `mb[ox]`
    Mbox,
    /// `newmail`
    Newmail,
    /// `n[ext]`
    Next,
    /// `pi[pe]`, `|`
    Pipe,
    /// `p[rint]`, `t[ype]`
    Print,
    /// `P[rint]`, `T[ype]`
    PrintAll,
    /// `q[uit]`
    Quit,
    /// `r[eply]`, `r[espond]`
    Reply,
    /// `R[eply]`, `R[espond]`
    ReplyAuthors,
    /// `ret[ain]`
    Retain,
    /// `s[ave]`
    Save,
    /// `S[ave]`
    SaveByAuthor,
    /// `se[t]`
    Set,
    /// `si[ze]`
    Size,
    /// `sort`
    Sort,
    /// `thread`, `unsort`, `unthread`
    Thread,
    /// `so[urce]`
    Source,
    /// `to[p]`
    Top,
    /// `tou[ch]`
    Touch,
    /// `una[lias]`
    Unalias,
    /// `unanswered`
    Unanswered,
    /// `undef`
    Undef,
    /// `u[ndelete]`
    Undelete,
    /// `undraft`
    Undraft,
    /// `unflag`
    Unflag,
    /// `uns[et]`
    Unset,
    /// `v[isual]`
    Visual,
    /// `w[rite]`
    Write,
    /// `z`, `z+`, `z-`
    Scroll,
    /// `!`
    Shell,
    /// `=`
    Number,
    /// `#`
    Comment,
}
